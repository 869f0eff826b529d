// The rankings of the clocks with open intervals, by number: read from a table, so that none has to be searched for.
// Bounds of a number stay clauses here: the check finds them at each call, and a type around the number would be opened at each use.
// What joins two parameters stays a clause here: a type of both would be made anew for each call, and taken apart in it.
ghost use Rattle.std.specs.Prelude.{ℕ, Bool, ◌≡◌, cond, [], ◌+◌, ◌≤◌, ◌<◌, length, get_or, take};
ghost use Rattle.regions.specs.Values.{row_of, padded};
ghost use Rattle.automata.specs.Clocks.{at};
ghost use Rattle.rankings.specs.Table.{starts, table};
ghost use Rattle.rankings.specs.Ranking.{rows_ranked, InRange, weight, pattern, pattern_of, first_ranking};

use crate::table::Rankings;
use regions::clocks::Clocks;
use regions::region::{Region, is_open};

// Each choice of open clocks among four has a number, the sum of these.
const WEIGHTS: [usize; 4] = [1, 2, 4, 8];

// Where the rankings of each choice of open clocks begin in the table, and after them where the table ends.
const STARTS: [usize; 17] = [
    0, 1, 2, 3, 6, 7, 10, 13, 26, 27, 30, 33, 46, 49, 62, 75, 150,
];

// The ranks of four clocks, choice after choice of those that are open, and for each of them ascending: 1, 2, .. with none missing for the open clocks,
// 0 for the others.
const RANKINGS: [[u8; 4]; 150] = [
    [0, 0, 0, 0],
    [1, 0, 0, 0],
    [0, 1, 0, 0],
    [1, 1, 0, 0],
    [1, 2, 0, 0],
    [2, 1, 0, 0],
    [0, 0, 1, 0],
    [1, 0, 1, 0],
    [1, 0, 2, 0],
    [2, 0, 1, 0],
    [0, 1, 1, 0],
    [0, 1, 2, 0],
    [0, 2, 1, 0],
    [1, 1, 1, 0],
    [1, 1, 2, 0],
    [1, 2, 1, 0],
    [1, 2, 2, 0],
    [1, 2, 3, 0],
    [1, 3, 2, 0],
    [2, 1, 1, 0],
    [2, 1, 2, 0],
    [2, 1, 3, 0],
    [2, 2, 1, 0],
    [2, 3, 1, 0],
    [3, 1, 2, 0],
    [3, 2, 1, 0],
    [0, 0, 0, 1],
    [1, 0, 0, 1],
    [1, 0, 0, 2],
    [2, 0, 0, 1],
    [0, 1, 0, 1],
    [0, 1, 0, 2],
    [0, 2, 0, 1],
    [1, 1, 0, 1],
    [1, 1, 0, 2],
    [1, 2, 0, 1],
    [1, 2, 0, 2],
    [1, 2, 0, 3],
    [1, 3, 0, 2],
    [2, 1, 0, 1],
    [2, 1, 0, 2],
    [2, 1, 0, 3],
    [2, 2, 0, 1],
    [2, 3, 0, 1],
    [3, 1, 0, 2],
    [3, 2, 0, 1],
    [0, 0, 1, 1],
    [0, 0, 1, 2],
    [0, 0, 2, 1],
    [1, 0, 1, 1],
    [1, 0, 1, 2],
    [1, 0, 2, 1],
    [1, 0, 2, 2],
    [1, 0, 2, 3],
    [1, 0, 3, 2],
    [2, 0, 1, 1],
    [2, 0, 1, 2],
    [2, 0, 1, 3],
    [2, 0, 2, 1],
    [2, 0, 3, 1],
    [3, 0, 1, 2],
    [3, 0, 2, 1],
    [0, 1, 1, 1],
    [0, 1, 1, 2],
    [0, 1, 2, 1],
    [0, 1, 2, 2],
    [0, 1, 2, 3],
    [0, 1, 3, 2],
    [0, 2, 1, 1],
    [0, 2, 1, 2],
    [0, 2, 1, 3],
    [0, 2, 2, 1],
    [0, 2, 3, 1],
    [0, 3, 1, 2],
    [0, 3, 2, 1],
    [1, 1, 1, 1],
    [1, 1, 1, 2],
    [1, 1, 2, 1],
    [1, 1, 2, 2],
    [1, 1, 2, 3],
    [1, 1, 3, 2],
    [1, 2, 1, 1],
    [1, 2, 1, 2],
    [1, 2, 1, 3],
    [1, 2, 2, 1],
    [1, 2, 2, 2],
    [1, 2, 2, 3],
    [1, 2, 3, 1],
    [1, 2, 3, 2],
    [1, 2, 3, 3],
    [1, 2, 3, 4],
    [1, 2, 4, 3],
    [1, 3, 1, 2],
    [1, 3, 2, 1],
    [1, 3, 2, 2],
    [1, 3, 2, 3],
    [1, 3, 2, 4],
    [1, 3, 3, 2],
    [1, 3, 4, 2],
    [1, 4, 2, 3],
    [1, 4, 3, 2],
    [2, 1, 1, 1],
    [2, 1, 1, 2],
    [2, 1, 1, 3],
    [2, 1, 2, 1],
    [2, 1, 2, 2],
    [2, 1, 2, 3],
    [2, 1, 3, 1],
    [2, 1, 3, 2],
    [2, 1, 3, 3],
    [2, 1, 3, 4],
    [2, 1, 4, 3],
    [2, 2, 1, 1],
    [2, 2, 1, 2],
    [2, 2, 1, 3],
    [2, 2, 2, 1],
    [2, 2, 3, 1],
    [2, 3, 1, 1],
    [2, 3, 1, 2],
    [2, 3, 1, 3],
    [2, 3, 1, 4],
    [2, 3, 2, 1],
    [2, 3, 3, 1],
    [2, 3, 4, 1],
    [2, 4, 1, 3],
    [2, 4, 3, 1],
    [3, 1, 1, 2],
    [3, 1, 2, 1],
    [3, 1, 2, 2],
    [3, 1, 2, 3],
    [3, 1, 2, 4],
    [3, 1, 3, 2],
    [3, 1, 4, 2],
    [3, 2, 1, 1],
    [3, 2, 1, 2],
    [3, 2, 1, 3],
    [3, 2, 1, 4],
    [3, 2, 2, 1],
    [3, 2, 3, 1],
    [3, 2, 4, 1],
    [3, 3, 1, 2],
    [3, 3, 2, 1],
    [3, 4, 1, 2],
    [3, 4, 2, 1],
    [4, 1, 2, 3],
    [4, 1, 3, 2],
    [4, 2, 1, 3],
    [4, 2, 3, 1],
    [4, 3, 1, 2],
    [4, 3, 2, 1],
];

// Where the rankings of a choice of open clocks begin.
#[tactic(auto, unfolding(crate::specs::Table::starts))]
fn start_of(pattern: usize) -> usize
    requires { pattern < 17 }
    ensures { result ≡ at starts pattern }
{
    STARTS[pattern]
}

// The whole table, for who reads many rankings: it is made once, and lent for each of them.
#[tactic(auto, unfolding(crate::specs::Table::table))]
pub fn all_rankings() -> Rankings {
    Rankings { each: RANKINGS }
}

// What a clock adds to the number of a choice of open clocks.
pub fn weight_if(inside: bool, z: usize) -> usize
    requires { z < 4 }
    ensures { result ≡ cond inside (weight z) 0 }
{
    if inside { WEIGHTS[z] } else { 0 }
}

// The number of the choice of those of the first n clocks that pass a test.
pub fn pattern_where<F: Fn(usize) -> bool>(n: usize, passes: F) -> usize
    requires n_bound { n ≤ 4 }
    requires callable { (z : ℕ) → z < n → F.pre passes z }
    ensures { (test : ℕ → Bool) → ((z : ℕ) (b : Bool) → z < n → F.post passes z b → b ≡ test z) → result ≡ pattern test n }
{
    let mut sum = 0;
    for z in 0..n {
        sum += weight_if(passes(z), z);
    }
    sum
}

// The number of the choice of open clocks that a part has.
fn open_pattern(clocks: Clocks, part: Region) -> usize
    ensures value { result ≡ pattern_of clocks part }
    ensures low { result < 16 }
{
    pattern_where(
        usize::from(clocks.count),
        |z| is_open(clocks.bounds[z], part.intervals[z]),
    )
}

// How many regions have the location and the intervals of the part.
pub fn rankings_of(clocks: Clocks, part: Region) -> usize
    requires in_range { InRange clocks part }
    ensures { result ≡ length (rows_ranked clocks part) }
{
    let pattern = open_pattern(clocks, part);
    start_of(pattern + 1) - start_of(pattern)
}

// Where the rankings of the part's open clocks begin in the table: the same for all of them.
pub fn first_ranking(clocks: Clocks, part: Region) -> usize
    ensures { result ≡ first_ranking clocks part }
{
    start_of(open_pattern(clocks, part))
}

// Region j of those that have the location and the intervals of the part, ascending, where it is known at which of the table's rows they begin.
#[tactic(auto, using(crate::proofs::Laws::Ranking::zeros_after, crate::proofs::Laws::Ranking::row_at))]
pub fn ranked_from(
    rankings: &Rankings,
    clocks: Clocks,
    part: Region,
    first: usize,
    j: usize,
) -> Region
    requires in_range { InRange clocks part }
    requires first_value { first ≡ first_ranking clocks part }
    requires j_in_bounds { j < length (rows_ranked clocks part) }
    ensures row { row_of clocks.count result ≡ get_or (rows_ranked clocks part) j (row_of clocks.count part) }
    ensures location { result.location ≡ part.location }
    ensures intervals { result.intervals ≡ part.intervals }
    ensures ranks { result.ranks ≡ padded (take clocks.count result.ranks) }
    ensures table { result.ranks ≡ get_or table (first + j) [] }
{
    Region {
        ranks: rankings.each[first + j],
        ..part
    }
}

// Region j of those that have the location and the intervals of the part, ascending.
pub fn ranked(clocks: Clocks, part: Region, j: usize) -> Region
    requires in_range { InRange clocks part }
    requires j_in_bounds { j < length (rows_ranked clocks part) }
    ensures row { row_of clocks.count result ≡ get_or (rows_ranked clocks part) j (row_of clocks.count part) }
    ensures location { result.location ≡ part.location }
    ensures intervals { result.intervals ≡ part.intervals }
    ensures ranks { result.ranks ≡ padded (take clocks.count result.ranks) }
{
    ranked_from(
        &all_rankings(),
        clocks,
        part,
        first_ranking(clocks, part),
        j,
    )
}
