// How far an edge leads from a row, as numbers: for each clock the lower and the upper end of what its update allows there. Where these lie within those
// of another row, the edge leads no further from the one than from the other.
// Bounds of a number stay clauses here: the check finds them at each call, and a type around the number would be opened at each use.
// What joins two parameters stays a clause here: a type of both would be made anew for each call, and taken apart in it.
// A comparison stays a number (`comparison.rt` of `regions` says why).
ghost use Rattle.std.specs.Prelude.{◌≡◌, cond, ◌≤◌, ◌<◌, length};
ghost use Rattle.automata.specs.Edge.{Bounded, BoundedBy};
ghost use Rattle.regions.specs.Values.{bounds_of, row_of, action_of, edge_of};
ghost use Rattle.skylines.specs.Reach.{underb, overb, place, upb, downb, low_end, high_end, ReachOf, withinb};

use regions::clocks::Clocks;
use regions::comparison;
use regions::edge::{Action, Edge};
use regions::region::Region;

// How far an edge leads from a row: the lower and the upper ends of what its updates allow, of which the first ones are the clocks', and the row's number
// among others.
#[derive(Clone, Copy, Default)]
pub struct Reach {
    pub lows: [u32; 4],
    pub highs: [u32; 4],
    pub row: u32,
}

// The ends of what one update allows.
#[derive(Clone, Copy)]
struct Ends {
    low: u32,
    high: u32,
}

// Whether a clock's value, with something added and something taken away, is below 0.
fn is_under(interval: u16, up: u16, down: u16) -> bool
    ensures { result ≡ underb interval up down }
{
    u32::from(interval) + 2 * u32::from(up) < 2 * u32::from(down)
}

// Whether it is at the top of a clock with this bound, or past that.
fn is_over(bound: u16, interval: u16, up: u16, down: u16) -> bool
    ensures { result ≡ overb bound interval up down }
{
    2 * u32::from(bound) + 1 + 2 * u32::from(down) <= u32::from(interval) + 2 * u32::from(up)
}

// Its place among the values of a clock with this bound: a rank is below 5. All that is below them has one place, and all that is at the top or past it
// another: no new value tells such apart.
#[tactic(auto, unfolding(crate::specs::Reach::place))]
fn place(bound: u16, interval: u16, rank: u8, up: u16, down: u16) -> u32
    ensures { result ≡ place bound interval rank up down }
{
    if is_under(interval, up, down) {
        0
    } else if is_over(bound, interval, up, down) {
        5 * (2 * u32::from(bound) + 2)
    } else {
        5 * (u32::from(interval) + 2 * u32::from(up) - 2 * u32::from(down) + 1) + u32::from(rank)
    }
}

// The ends at a place: none on a side that is allowed, if the other is not.
#[tactic(auto, unfolding(crate::specs::Reach::downb, crate::specs::Reach::upb))]
fn ends_at(comparison: u8, place: u32) -> Ends
    ensures low { result.low ≡ cond (downb comparison) 0 place }
    ensures high { result.high ≡ cond (upb comparison) 0 place }
{
    let answers = comparison::answers_of(comparison);
    Ends {
        low: if answers.below && !answers.above {
            0
        } else {
            place
        },
        high: if answers.above && !answers.below {
            0
        } else {
            place
        },
    }
}

// The ends of what the update of clock z allows from a region.
fn update_ends(clocks: Clocks, a: Action, comparison: u8, z: usize, from: Region) -> Ends
    requires clocks_len { length (bounds_of clocks) ≡ clocks.count }
    requires z_lt_count { z < clocks.count }
    requires bounded_by { BoundedBy (bounds_of clocks) z (action_of a) }
    ensures low { result.low ≡ low_end (bounds_of clocks) (row_of clocks.count from) z comparison (action_of a) }
    ensures high { result.high ≡ high_end (bounds_of clocks) (row_of clocks.count from) z comparison (action_of a) }
{
    let bound = clocks.bounds[z];
    match a {
        Action::Keep => {
            let kept = place(bound, from.intervals[z], from.ranks[z], 0, 0);
            Ends {
                low: kept,
                high: kept,
            }
        }
        Action::Constant(_) => Ends { low: 0, high: 0 },
        Action::Clock(y, up, down) => {
            let y = y as usize;
            ends_at(
                comparison,
                place(bound, from.intervals[y], from.ranks[y], up, down),
            )
        }
    }
}

// How far an edge leads from a region that is row i of some.
pub fn reach_of(clocks: Clocks, e: Edge, from: Region, i: u32) -> Reach
    requires clocks_len { length (bounds_of clocks) ≡ clocks.count }
    requires bounded { Bounded (bounds_of clocks) (edge_of clocks.count e) }
    ensures { ReachOf (bounds_of clocks) (edge_of clocks.count e) (row_of clocks.count from) i result }
{
    let n = clocks.count as usize;
    let mut lows = [0; 4];
    let mut highs = [0; 4];
    for z in 0..n {
        let u = e.updates[z];
        let ends = update_ends(clocks, u.action, u.comparison, z, from);
        lows[z] = ends.low;
        highs[z] = ends.high;
    }
    Reach {
        lows,
        highs,
        row: i,
    }
}

// Whether the ends of each of n clocks lie within those of another reach.
pub fn is_within(n: usize, a: Reach, b: Reach) -> bool
    requires { n ≤ 4 }
    ensures { result ≡ withinb n a b }
{
    (0..n).all(|z| b.lows[z] <= a.lows[z] && a.highs[z] <= b.highs[z])
}
