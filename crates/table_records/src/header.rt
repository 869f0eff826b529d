// The header of a table.
ghost use Rattle.std.specs.Prelude.{◌≡◌, ◌≤◌, length};
ghost use Rattle.automata.specs.Checks.{every};
ghost use Rattle.table_files.specs.Reading.{between};
ghost use Rattle.table_files.specs.TableFile.{header};
ghost use Rattle.automata.specs.Clocks.{at};
ghost use Rattle.table_records.specs.Header.{counts_in_range, low, Copied, header_from, HeadOf, Headed};

use crate::head::Head;
use crate::record::{part, record, two_bytes};
use crate::refusal::{Fault, Refusal};
use regions::clocks::Clocks;

const TA: [u8; 2] = *b"TA";

// Whether x is within a range, ends included.
fn within(low: u8, high: u8, x: u8) -> bool
    ensures { result ≡ between low high x }
{
    low <= x && x <= high
}

// Whether the fields before the bounds are in range: clocks, locations, an initial location among these, edges.
#[tactic(auto, unfolding(crate::specs::Header::counts_in_range))]
fn counts_pass(bytes: &[u8]) -> bool
    requires { 7 ≤ length bytes.now }
    ensures { result ≡ counts_in_range bytes.now }
{
    within(1, 4, bytes[2])
        && within(1, 64, bytes[3])
        && bytes[4] < bytes[3]
        && two_bytes(bytes, 5) <= 256
}

// Whether each bound is in range.
fn bounds_pass(bytes: &[u8]) -> bool
    ensures { result ≡ every low bytes.now }
{
    bytes.iter().all(|bound| *bound <= 127)
}

// The bounds as an array, with zeros after them.
fn bounds_of(bytes: &[u8]) -> [u16; 4]
    requires { length bytes.now ≤ 4 }
    ensures { Copied bytes.now result }
{
    let mut bounds = [0u16; 4];
    for (z, byte) in bytes.iter().enumerate() {
        bounds[z] = *byte as u16;
    }
    bounds
}

// What the bytes before the bounds, and the bounds, say.
fn head_of(bytes: &[u8], rest: &[u8]) -> Head
    requires in_bounds { 7 ≤ length bytes.now }
    requires bytes_value { at bytes.now 2 ≡ length rest.now }
    requires rest_len_bound { length rest.now ≤ 4 }
    ensures { HeadOf (header_from bytes.now rest.now) result }
{
    Head {
        clocks: Clocks {
            count: bytes[2],
            bounds: bounds_of(rest),
        },
        locations: bytes[3],
        initial: bytes[4],
        edges: two_bytes(bytes, 5),
    }
}

// Reads the header: 7 bytes, their fields, and then the bounds.
pub fn header(file: &[u8]) -> Result<Head, Refusal>
    ensures { Headed file.now (header file.now) result }
{
    let bytes = record(file, 0, 7, TA);
    if bytes.len() < 7 {
        return Err(Fault::TableCut.at(0));
    }
    if !counts_pass(bytes) {
        return Err(Fault::HeaderRange.at(0));
    }
    let n = bytes[2] as usize;
    let rest = part(file, 7, n);
    if rest.len() < n {
        return Err(Fault::TableCut.at(0));
    }
    if !bounds_pass(rest) {
        return Err(Fault::HeaderRange.at(0));
    }
    Ok(head_of(bytes, rest))
}
