// The patterns of kinds: one kind for each clock's interval. Of all regions whose intervals are of one pattern the moves allow the same rankings, so these
// are tried once for the pattern.
// Bounds of a number stay clauses here: the check finds them at each call, and a type around the number would be opened at each use.
// What joins two parameters stays a clause here: a type of both would be made anew for each call, and taken apart in it.
ghost use Rattle.std.specs.Prelude.{◌≡◌, true, ℕ, ◌*◌, ◌≤◌, ◌<◌};
ghost use Rattle.automata.specs.Clocks.{at};
ghost use Rattle.regions.specs.Values.{row_of};
ghost use Rattle.rankings.specs.Ranking.{InRange};
ghost use Rattle.way_counts.specs.Kinds.{number};
ghost use Rattle.way_counts.specs.Patterns.{digit, Right, Counts, FewOfEach, times, samples_of, ways, pattern_rows};

use crate::kinds::{Kind, count_of_kind, one_of_kind};
use edge_walk::search::Search;
use rankings::ranking::{ranked, rankings_of};
use regions::clock_move::Move;
use regions::region::Region;

// How many intervals of a kind a clock has, and one of them where there are some.
#[derive(Clone, Copy)]
pub struct OfKind {
    pub count: u16,
    pub sample: u16,
}

// What there is of each kind, in the order of their numbers, clock by clock.
#[derive(Clone, Copy)]
pub struct Kinds {
    pub each: [[OfKind; 3]; 4],
}

// A pattern: in how many ways the clocks can have intervals of it, and one of these ways.
#[derive(Clone, Copy)]
pub struct Pattern {
    pub times: usize,
    pub part: Region,
}

// What a clock has of a kind.
fn of_kind(asked: Move, wanted: Kind) -> OfKind
    requires { asked.top ≤ 32767 }
    ensures { Right asked (number wanted) result }
{
    OfKind {
        count: count_of_kind(asked, wanted),
        sample: one_of_kind(asked, wanted),
    }
}

// The kinds of all clocks' intervals, worked out once for all patterns.
pub fn kinds_of(search: Search) -> Kinds
    ensures { Counts search result }
{
    // what stands where there is no clock; nothing reads it
    let nothing = OfKind {
        count: 0,
        sample: 0,
    };
    let mut each = [[nothing; 3]; 4];
    for z in 0..usize::from(search.clocks.count) {
        let asked = search.moves.each[z];
        each[z] = [
            of_kind(asked, Kind::Shut),
            of_kind(asked, Kind::Parted),
            of_kind(asked, Kind::Loose),
        ];
    }
    Kinds { each }
}

// The digits of a pattern's number in base 3, clock by clock: each is the number of a kind.
fn digits_of(number: usize) -> [usize; 4]
    ensures digits { (z : ℕ) → z < 4 → at result z ≡ digit number z }
    ensures low { (z : ℕ) → at result z < 3 }
{
    [number % 3, number / 3 % 3, number / 9 % 3, number / 27 % 3]
}

// The pattern of a number: the clocks' intervals are of the kinds that its digits say.
fn pattern_of(kinds: Kinds, n: usize, location: u8, number: usize) -> Pattern
    requires n_bound { n ≤ 4 }
    requires few_of_each { FewOfEach n kinds }
    ensures times { result.times ≡ times kinds n number }
    ensures location { result.part.location ≡ location }
    ensures intervals { (row_of n result.part).intervals ≡ samples_of kinds n number }
{
    let digits = digits_of(number);
    let mut part = Region {
        location,
        intervals: [0; 4],
        ranks: [0; 4],
    };
    let mut times = 1;
    for z in 0..n {
        let chosen = kinds.each[z][digits[z]];
        times *= usize::from(chosen.count);
        part.intervals[z] = chosen.sample;
    }
    Pattern { times, part }
}

// Whether no clock's order is that of the fractional parts, so that all rankings are allowed.
fn is_loose(n: usize, number: usize) -> bool
    requires { n ≤ 4 }
    ensures { result ≡ true → (z : ℕ) → z < n → digit number z ≡ 1 → ⊥ }
{
    let digits = digits_of(number);
    (0..n).all(|z| digits[z] != Kind::Parted as usize)
}

// How many regions with the location and the intervals of the part the moves allow, each of them tried.
fn allowed_rankings(search: Search, part: Region) -> usize
    requires in_range { InRange search.clocks part }
    ensures { result ≡ ways search part.location (row_of search.clocks.count part).intervals }
{
    let n = usize::from(search.clocks.count);
    (0..rankings_of(search.clocks, part))
        .filter(|j| search.moves.are_placed(ranked(search.clocks, part, *j), n))
        .count()
}

// How many regions of the location the moves allow whose intervals are of the pattern.
#[tactic(auto, using(crate::proofs::Laws::Loops::rows_none, crate::proofs::Laws::Loops::part_within, crate::proofs::Laws::Loops::rows_fit, crate::proofs::Laws::Loops::rows_are, crate::proofs::Laws::Loops::loose_rankings, crate::proofs::Laws::Loops::tried_ways))]
pub fn rows_of_pattern(search: Search, kinds: Kinds, location: u8, number: usize) -> usize
    requires counts { Counts search kinds }
    requires few_of_each { FewOfEach search.clocks.count kinds }
    ensures { result ≡ pattern_rows search location kinds number }
{
    let n = usize::from(search.clocks.count);
    let pattern = pattern_of(kinds, n, location, number);
    if pattern.times == 0 {
        return 0;
    }
    if is_loose(n, number) {
        return pattern.times * rankings_of(search.clocks, pattern.part);
    }
    pattern.times * allowed_rankings(search, pattern.part)
}
