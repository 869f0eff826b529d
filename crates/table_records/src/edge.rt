// The edge records of a table: their bytes, and whether their fields are in range.
// What joins two parameters stays a clause here: a type of both would be made anew for each call, and taken apart in it.
// A comparison stays a number, and a kind as its byte has it until it is decoded (`comparison.rt` of `regions` says why).
ghost use Rattle.std.specs.Prelude.{◌≡◌, ◌&&◌, ◌+◌, ◌*◌, ◌≤◌, length, drop, eqb, leb, ltb};
ghost use Rattle.automata.specs.Comparison.{comparisons};
ghost use Rattle.automata.specs.Checks.{every};
ghost use Rattle.table_files.specs.Bytes.{up, down};
ghost use Rattle.table_files.specs.Reading.{records};
ghost use Rattle.table_files.specs.TableFile.{guard, guard_in_range, fields, fields_in_range, edge_record};
ghost use Rattle.table_records.specs.Scan.{Scanned};
ghost use Rattle.table_records.specs.Edge.{ends_in_range, size_of, guards_from, fields_from};

use crate::record::{part, record, two_bytes};
use crate::refusal::{Fault, Refusal};
use regions::comparison::is_comparison;

const ED: [u8; 2] = *b"ED";

// Whether the fields before the guards are in range: source, target, guard count.
#[tactic(auto, unfolding(crate::specs::Edge::ends_in_range))]
fn ends_pass(bytes: &[u8], locations: u8) -> bool
    requires { 5 ≤ length bytes.now }
    ensures { result ≡ ends_in_range locations bytes.now }
{
    bytes[2] < locations && bytes[3] < locations && bytes[4] <= 8
}

// Whether the guard from byte at on is in range.
fn guard_passes(bytes: &[u8], at: usize, clocks: u8) -> bool
    requires { at + 3 ≤ length bytes.now }
    ensures { result ≡ guard_in_range clocks (guard bytes.now at) }
{
    bytes[at] < clocks && is_comparison(bytes[at + 1]) && bytes[at + 2] <= 127
}

// Whether each of the guards is in range.
fn guards_pass(bytes: &[u8], count: u8, clocks: u8) -> bool
    requires { 3 * count ≤ length bytes.now }
    ensures { result ≡ every (guard_in_range clocks) (guards_from bytes.now count) }
{
    (0..count as usize).all(|i| guard_passes(bytes, 3 * i, clocks))
}

// What an offset adds.
pub fn up(offset: u16) -> u16
    ensures { result ≡ up offset }
{
    if offset < 32768 { offset } else { 0 }
}

// What an offset takes away.
pub fn down(offset: u16) -> u16
    ensures { result ≡ down offset }
{
    if offset < 32768 {
        0
    } else {
        65535 - offset + 1
    }
}

// Whether an update that keeps is in range.
fn keep_passes(comparison: u8, y: u8, offset: u16) -> bool
    ensures { result ≡ (eqb comparison 0 && eqb y 0 && eqb offset 0) }
{
    comparison == 0 && y == 0 && offset == 0
}

// Whether an update to a constant is in range.
fn constant_passes(comparison: u8, y: u8, offset: u16) -> bool
    ensures { result ≡ (ltb comparison comparisons && eqb y 0 && leb offset 127) }
{
    is_comparison(comparison) && y == 0 && offset <= 127
}

// Whether an update from a clock is in range.
fn clock_passes(comparison: u8, y: u8, offset: u16, clocks: u8) -> bool
    ensures { result ≡ (ltb comparison comparisons && ltb y clocks && leb (up offset) 127 && leb (down offset) 127) }
{
    is_comparison(comparison) && y < clocks && up(offset) <= 127 && down(offset) <= 127
}

// Whether the update from byte at on is in range.
fn update_passes(bytes: &[u8], at: usize, clocks: u8) -> bool
    requires { at + 5 ≤ length bytes.now }
    ensures { result ≡ fields_in_range clocks (fields bytes.now at) }
{
    let comparison = bytes[at + 1];
    let y = bytes[at + 2];
    let offset = two_bytes(bytes, at + 3);
    match bytes[at] {
        0 => keep_passes(comparison, y, offset),
        1 => constant_passes(comparison, y, offset),
        2 => clock_passes(comparison, y, offset, clocks),
        _ => false,
    }
}

// Whether each clock's update is in range, where the updates begin at byte first.
fn updates_pass(bytes: &[u8], first: usize, clocks: u8) -> bool
    requires { first + 5 * clocks ≤ length bytes.now }
    ensures { result ≡ every (fields_in_range clocks) (fields_from bytes.now first clocks) }
{
    (0..clocks as usize).all(|z| update_passes(bytes, first + 5 * z, clocks))
}

// How many bytes so many guards, and an update for each clock, have.
pub fn size_of(count: u8, clocks: u8) -> usize
    ensures { result ≡ size_of count clocks }
{
    3 * (count as usize) + 5 * (clocks as usize)
}

// Reads the edge record from at on, 5 bytes, their fields, and then guards and updates, all together, and says where the next one begins.
fn edge_record(
    file: &[u8],
    at: usize,
    place: u16,
    clocks: u8,
    locations: u8,
) -> Result<usize, Refusal>
    ensures { Scanned file.now (edge_record clocks locations place (drop at file.now)) result }
{
    let bytes = record(file, at, 5, ED);
    if bytes.len() < 5 {
        return Err(Fault::TableCut.at(place));
    }
    if !ends_pass(bytes, locations) {
        return Err(Fault::TableRange.at(place));
    }
    let count = bytes[4];
    let size = size_of(count, clocks);
    let rest = part(file, at + 5, size);
    if rest.len() < size {
        return Err(Fault::TableCut.at(place));
    }
    if !guards_pass(rest, count, clocks) {
        return Err(Fault::TableRange.at(place));
    }
    if !updates_pass(rest, 3 * (count as usize), clocks) {
        return Err(Fault::TableRange.at(place));
    }
    Ok(at + 5 + size)
}

// Reads so many edge records from at on, of which the first comes after the header and the locations, and says where they end.
pub fn edges(
    file: &[u8],
    at: usize,
    clocks: u8,
    locations: u8,
    count: u16,
) -> Result<usize, Refusal>
    requires at_in_bounds { at ≤ length file.now }
    requires edges_bound { count ≤ 256 }
    ensures { Scanned file.now (records (edge_record clocks locations) (1 + locations) count (drop at file.now)) result }
{
    let first = 1 + (locations as u16);
    let mut here = at;
    for place in first..first + count {
        here = edge_record(file, here, place, clocks, locations)?;
    }
    Ok(here)
}
