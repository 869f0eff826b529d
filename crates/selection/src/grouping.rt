// Rows of many groups, of which few each are to be walked from: where an edge keeps clocks, or sets one to another's value, it leads no further from a row than
// from another only if it asks for the same values of those. Rows that do are a group, and each group has two slots for one of them each.
// Bounds of a number stay clauses here: the check finds them at each call, and a type around the number would be opened at each use.
// What joins two parameters stays a clause here: a type of both would be made anew for each call, and taken apart in it.
ghost use Rattle.std.specs.Prelude.{◌≡◌, false, ℕ, ◌≤◌, ◌<◌, length};
ghost use Rattle.regions.specs.Values.{bounds_of, edge_of};
ghost use Rattle.skylines.specs.Reach.{ReachOf};
ghost use Rattle.listed_rows.specs.Listed.{listed_row};
ghost use Rattle.listed_rows.specs.Located.{Stretch};
ghost use Rattle.selection.specs.Chosen.{Offered, AllHeld, Lodges, Groups};

use crate::choosing::reach_at;
use listed_rows::edge_in_list::EdgeOverRows;
use listed_rows::listed::Span;
use regions::comparison;
use regions::edge::{Action, Edge, Update};
use skylines::reach::{Reach, is_within, reach_of};

// Whether an update asks for one value of another clock, or of its own.
fn asks_for_one(u: Update) -> bool {
    match u.action {
        Action::Keep => true,
        Action::Constant(_) => false,
        Action::Clock(..) => comparison::is_at_alone(u.comparison),
    }
}

// Whether an edge may have many groups: where it asks one value of several clocks, or of one that has more than eight intervals. Where it has few, a skyline
// holds a row of each. Either answer would be right.
pub fn has_groups(n: usize, bounds: [u16; 4], e: Edge) -> bool
    requires { n ≤ 4 }
{
    let mut asked = false;
    for (u, bound) in e.updates[..n].iter().zip(&bounds) {
        if asks_for_one(*u) {
            if asked || 3 < *bound {
                return true;
            }
            asked = true;
        }
    }
    false
}

// The first slot of a reach: a number for the ends that it asks to be the same. Two groups may come to have slots in common; any slot would be right.
fn slot(reach: Reach) -> usize
    ensures { result < 1024 }
{
    let mut sum = 0;
    for (low, high) in reach.lows.iter().zip(&reach.highs) {
        if low == high {
            sum = (167 * sum + *low % 4096) % 1024;
        }
    }
    sum as usize
}

// Offers row i, of which the reach is given, to slot k, and tells whether it is taken: if that holds none, or one that it leads no further from, or one that
// leads no further than it and makes room. Else the slot stays as it is.
fn lodge_in(edge: &EdgeOverRows, i: usize, own: Reach, slots: &mut [u16; 1024], k: usize) -> bool
    requires offered { Offered (edge_of edge.now.clocks.count edge.now.e) edge.now.clocks.count edge.now.bytes.now 0 edge.now.count i }
    requires reach_of { ReachOf (bounds_of edge.now.clocks) (edge_of edge.now.clocks.count edge.now.e) (listed_row edge.now.clocks.count edge.now.bytes.now i) i own }
    requires all_held { AllHeld (edge_of edge.now.clocks.count edge.now.e) edge.now.clocks.count edge.now.bytes.now 0 edge.now.count slots.old }
    requires k_bound { k < 1024 }
    ensures lodges { (lo hi : ℕ) → lo ≤ i → i < hi → hi ≤ edge.now.count → AllHeld (edge_of edge.now.clocks.count edge.now.e) edge.now.clocks.count edge.now.bytes.now lo hi slots.old → Lodges (bounds_of edge.now.clocks) (edge_of edge.now.clocks.count edge.now.e) edge.now.clocks.count edge.now.bytes.now lo hi i false slots.old slots.new result }
    ensures left { result ≡ false → slots.new ≡ slots.old }
{
    let holder = slots[k];
    if holder != 0 {
        let j = holder - 1;
        let clocks = edge.clocks;
        let n = clocks.count as usize;
        let other = reach_of(clocks, edge.e, edge.row(j as usize), j as u32);
        if is_within(n, own, other) {
            return true;
        }
        if !is_within(n, other, own) {
            return false;
        }
    }
    slots[k] = (i + 1) as u16;
    true
}

// Offers row i to the slots of its group, one after the other, and tells whether it is taken. One that is taken already, or from where the edge cannot be
// taken, needs no slot.
fn lodge(edge: &EdgeOverRows, i: usize, already: bool, slots: &mut [u16; 1024]) -> bool
    requires i_lt_count { i < edge.now.count }
    requires i_value { (listed_row edge.now.clocks.count edge.now.bytes.now i).location ≡ edge.now.e.source }
    requires all_held { AllHeld (edge_of edge.now.clocks.count edge.now.e) edge.now.clocks.count edge.now.bytes.now 0 edge.now.count slots.old }
    ensures { (lo hi : ℕ) → lo ≤ i → i < hi → hi ≤ edge.now.count → AllHeld (edge_of edge.now.clocks.count edge.now.e) edge.now.clocks.count edge.now.bytes.now lo hi slots.old → Lodges (bounds_of edge.now.clocks) (edge_of edge.now.clocks.count edge.now.e) edge.now.clocks.count edge.now.bytes.now lo hi i already slots.old slots.new result }
{
    if already {
        return true;
    }
    match reach_at(edge, i) {
        Some(own) => {
            let first = slot(own);
            lodge_in(edge, i, own, slots, first)
                || lodge_in(edge, i, own, slots, (first + 1) % 1024)
        }
        None => true,
    }
}

// Offers the rows that are not taken, one after the other. The edge leads no further from any that is taken then, and was not before, than from one that a
// slot holds.
pub fn lodge_all(edge: &EdgeOverRows, rows: Span, taken: &mut [bool; 4096], slots: &mut [u16; 1024])
    requires in_source { Stretch edge.now.clocks.count edge.now.bytes.now edge.now.count edge.now.e.source rows.start rows.end }
    requires all_held { AllHeld (edge_of edge.now.clocks.count edge.now.e) edge.now.clocks.count edge.now.bytes.now rows.start rows.end slots.old }
    ensures { Groups (bounds_of edge.now.clocks) (edge_of edge.now.clocks.count edge.now.e) edge.now.clocks.count edge.now.bytes.now rows.start rows.end taken.old taken.new slots.old slots.new }
{
    for i in rows.start..rows.end {
        taken[i] = lodge(edge, i, taken[i], slots);
    }
}
