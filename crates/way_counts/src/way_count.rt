// How many regions are on an edge's way: the sum over all patterns, whose number the bounds do not move.
// Bounds of a number stay clauses here: the check finds them at each call, and a type around the number would be opened at each use.
ghost use Rattle.std.specs.Prelude.{◌≡◌, ℕ, ◌≤◌, ◌<◌, length};
ghost use Rattle.automata.specs.Clocks.{at};
ghost use Rattle.edge_walk.specs.Way.{rows_on};
ghost use Rattle.way_counts.specs.Patterns.{patterns};

use crate::patterns::{kinds_of, rows_of_pattern};
use edge_walk::way::Way;

// How many patterns 0 to 4 clocks have: three kinds for each.
const PATTERNS: [usize; 5] = [1, 3, 9, 27, 81];

// How many patterns so many clocks have.
#[tactic(auto, unfolding(crate::specs::Patterns::patterns))]
fn pattern_count(n: usize) -> usize
    requires { n ≤ 4 }
    ensures { result ≡ patterns n }
{
    PATTERNS[n]
}

// How many regions are on the way. No region is visited, nor any interval by itself: bounds up to 127 only see to it that the sum fits.
pub fn way_count(way: Way) -> usize
    requires by_index { (z : ℕ) → z < way.search.clocks.count → at way.search.clocks.bounds z ≤ 127 }
    ensures { result ≡ length (rows_on way) }
{
    let kinds = kinds_of(way.search);
    (0..pattern_count(usize::from(way.search.clocks.count)))
        .map(|number| rows_of_pattern(way.search, kinds, way.target, number))
        .sum()
}
