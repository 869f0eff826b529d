// An edge by value, from the bytes of its record.
// Bounds of a number stay clauses here: the check finds them at each call, and a type around the number would be opened at each use.
// What joins two parameters stays a clause here: a type of both would be made anew for each call, and taken apart in it.
// A comparison stays a number, and a kind as its byte has it until it is decoded (`comparison.rt` of `regions` says why).
ghost use Rattle.std.specs.Prelude.{◌≡◌, map, ◌+◌, ◌*◌, ◌≤◌, length, take};
ghost use Rattle.regions.specs.Values.{guard_of, action_of, update_of, edge_of};
ghost use Rattle.table_files.specs.TableFile.{guard, action, fields, update};
ghost use Rattle.table_records.specs.Edge.{guards_from, fields_from, edge_at, after_edge, Stands};

use crate::edge::{down, size_of, up};
use crate::record::{part, two_bytes};
use regions::edge::{Action, Edge, Guard, Update};

// The guard from byte at on.
fn guard_from(bytes: &[u8], at: usize) -> Guard
    requires { at + 3 ≤ length bytes.now }
    ensures { guard_of result ≡ guard bytes.now at }
{
    Guard {
        clock: bytes[at],
        comparison: bytes[at + 1],
        constant: bytes[at + 2] as u16,
    }
}

// So many guards, with some that say nothing after them.
fn guards_from(bytes: &[u8], count: usize) -> [Guard; 8]
    requires count_in_bounds { 3 * count ≤ length bytes.now }
    requires count_bound { count ≤ 8 }
    ensures { map guard_of (take count result) ≡ guards_from bytes.now count }
{
    let mut guards = [Guard {
        clock: 0,
        comparison: 0,
        constant: 0,
    }; 8];
    for i in 0..count {
        guards[i] = guard_from(bytes, 3 * i);
    }
    guards
}

// What an update does, by its kind.
fn action_from(kind: u8, y: u8, offset: u16) -> Action
    ensures { action_of result ≡ action (record { kind = kind; comparison = 0; y = y; offset = offset }) }
{
    match kind {
        0 => Action::Keep,
        1 => Action::Constant(offset),
        _ => Action::Clock(y, up(offset), down(offset)),
    }
}

// The update from byte at on.
fn update_from(bytes: &[u8], at: usize) -> Update
    requires { at + 5 ≤ length bytes.now }
    ensures { update_of result ≡ update (fields bytes.now at) }
{
    Update {
        action: action_from(bytes[at], bytes[at + 2], two_bytes(bytes, at + 3)),
        comparison: bytes[at + 1],
    }
}

// The updates of so many clocks, from byte first on, with some that keep after them.
fn updates_from(bytes: &[u8], first: usize, clocks: usize) -> [Update; 4]
    requires clocks_in_bounds { first + 5 * clocks ≤ length bytes.now }
    requires clocks_bound { clocks ≤ 4 }
    ensures { map update_of (take clocks result) ≡ map update (fields_from bytes.now first clocks) }
{
    let mut updates = [Update {
        action: Action::Keep,
        comparison: 0,
    }; 4];
    for z in 0..clocks {
        updates[z] = update_from(bytes, first + 5 * z);
    }
    updates
}

// The edge whose record stands at a position.
pub fn edge_from(file: &[u8], at: usize, clocks: u8) -> Edge
    requires stands { Stands clocks file.now at }
    requires clocks_bound { clocks ≤ 4 }
    ensures means { edge_of clocks result ≡ edge_at clocks file.now at }
    ensures few { result.guard_count ≤ 8 }
{
    let bytes = part(file, at, 5);
    let count = bytes[4];
    let rest = part(file, at + 5, size_of(count, clocks));
    Edge {
        source: bytes[2],
        target: bytes[3],
        guard_count: count,
        guards: guards_from(rest, count as usize),
        updates: updates_from(rest, 3 * (count as usize), clocks as usize),
    }
}

// Where the record after that of an edge begins.
pub fn after_edge(file: &[u8], at: usize, clocks: u8) -> usize
    requires { Stands clocks file.now at }
    ensures { result ≡ after_edge clocks file.now at }
{
    let bytes = part(file, at, 5);
    at + 5 + size_of(bytes[4], clocks)
}
