// The bound rules of an admitted table, edge by edge.
// What joins two parameters stays a clause here: a type of both would be made anew for each call, and taken apart in it.
ghost use Rattle.std.specs.Prelude.{◌≡◌, ◌+◌, ◌≤◌, [], length};
ghost use Rattle.automata.specs.Clocks.{at};
ghost use Rattle.automata.specs.Checks.{every};
ghost use Rattle.regions.specs.Values.{guard_of, action_of, edge_of};
ghost use Rattle.table_files.specs.Admission.{guard_bounded, constant_bounded, clock_bounded, each_update, edges_bounded};
ghost use Rattle.tables.specs.Bounds.{broken_rule, RulesKept, edges_at, AllStand};

use regions::edge::{Action, Edge, Guard};
use table_records::decode::{after_edge, edge_from};
use table_records::refusal::{Fault, Refusal};

// The bound of a clock, 0 past the last.
fn bound(bounds: &[u16], z: u8) -> u16
    ensures { result ≡ at bounds.now z }
{
    let z = z as usize;
    if z < bounds.len() { bounds[z] } else { 0 }
}

// Whether a guard's constant is within its clock's bound.
fn guard_bounded(g: Guard, bounds: &[u16]) -> bool
    ensures { result ≡ guard_bounded bounds.now (guard_of g) }
{
    g.constant <= bound(bounds, g.clock)
}

// Whether each guard's constant is.
fn guards_bounded(e: &Edge, bounds: &[u16]) -> bool
    ensures { result ≡ every (guard_bounded bounds.now) (edge_of (length bounds.now) e.now).guards }
{
    e.guards
        .iter()
        .take(e.guard_count as usize)
        .all(|guard| guard_bounded(*guard, bounds))
}

// Whether the constant that clock z is updated to, if any, is within its bound.
fn constant_bounded(a: Action, z: u8, bounds: &[u16]) -> bool
    ensures { result ≡ constant_bounded bounds.now z (action_of a) }
{
    match a {
        Action::Constant(k) => k <= bound(bounds, z),
        Action::Keep | Action::Clock(..) => true,
    }
}

// Whether the clock that clock z is updated from, if any, has a bound that is great enough.
fn clock_bounded(a: Action, z: u8, bounds: &[u16]) -> bool
    ensures { result ≡ clock_bounded bounds.now z (action_of a) }
{
    match a {
        Action::Keep | Action::Constant(_) => true,
        Action::Clock(y, up, down) => {
            (bound(bounds, z) as u32) + (down as u32) <= (bound(bounds, y) as u32) + (up as u32)
        }
    }
}

// Whether each constant that a clock is updated to is within its bound.
fn constants_bounded(e: &Edge, bounds: &[u16]) -> bool
    requires { length bounds.now ≤ 4 }
    ensures { result ≡ each_update constant_bounded bounds.now (edge_of (length bounds.now) e.now) }
{
    (0..bounds.len() as u8).all(|z| constant_bounded(e.updates[z as usize].action, z, bounds))
}

// Whether each clock that another one is updated from has a bound that is great enough.
// It is like `constants_bounded`: one line, and a call that took the test would be as long.
fn clocks_bounded(e: &Edge, bounds: &[u16]) -> bool
    requires { length bounds.now ≤ 4 }
    ensures { result ≡ each_update clock_bounded bounds.now (edge_of (length bounds.now) e.now) }
{
    (0..bounds.len() as u8).all(|z| clock_bounded(e.updates[z as usize].action, z, bounds))
}

// The bound rule that an edge breaks, if any.
#[tactic(auto, unfolding(crate::specs::Bounds::broken_rule))]
fn broken_rule(e: &Edge, bounds: &[u16]) -> Option<Fault>
    requires { length bounds.now ≤ 4 }
    ensures { result ≡ broken_rule bounds.now (edge_of (length bounds.now) e.now) }
{
    if !guards_bounded(e, bounds) {
        return Some(Fault::ConstantAboveBound); // a guard's constant
    }
    if !constants_bounded(e, bounds) {
        return Some(Fault::ConstantAboveBound); // an update's constant
    }
    if !clocks_bounded(e, bounds) {
        return Some(Fault::ClockBreaksBound);
    }
    None
}

// Looks for the first edge that breaks a bound rule, from the first edge's record on. The bounds are lent and not a `Clocks`: the rules ask only that there
// are four at most.
pub fn edges_bounded(
    file: &[u8],
    at: usize,
    bounds: &[u16],
    locations: u8,
    edges: u16,
) -> Result<(), Refusal>
    requires clocks_bound { length bounds.now ≤ 4 }
    requires edges_bound { edges ≤ 256 }
    requires all_stand { AllStand (length bounds.now) file.now edges at }
    ensures { RulesKept (edges_bounded bounds.now (1 + locations) (edges_at (length bounds.now) file.now edges at) []) result }
{
    let clocks = bounds.len() as u8;
    let first = 1 + (locations as u16);
    let mut here = at;
    for place in first..first + edges {
        if let Some(fault) = broken_rule(&edge_from(file, here, clocks), bounds) {
            return Err(fault.at(place));
        }
        here = after_edge(file, here, clocks);
    }
    Ok(())
}
