// Which rankings of the same intervals an edge's moves allow: each is worked out once, and remembered.
// Bounds of a number stay clauses here: the check finds them at each call, and a type around the number would be opened at each use.
ghost use Rattle.std.specs.Prelude.{◌≡◌, true, false, ◌+◌, ◌≤◌, ◌<◌, length};
ghost use Rattle.automata.specs.Clocks.{at, one_if};
ghost use Rattle.regions.specs.Placing.{placed_at};
ghost use Rattle.rankings.specs.Ranking.{pattern};
ghost use Rattle.ranked_ways.specs.Allowed.{partedb, parted_at};
ghost use Rattle.ranked_ways.specs.Memo.{marked};

use rankings::ranking::pattern_where;
use regions::clock_move::Move;
use regions::placing::Moves;
use regions::region::Region;

// Whether the order of a clock's new value to what it is compared with is that of the fractional parts.
#[tactic(auto, unfolding(crate::specs::Allowed::partedb))]
fn is_parted(asked: Move, interval: u16) -> bool
    ensures { result ≡ partedb asked interval }
{
    interval != asked.top && asked.is_by_parts(interval)
}

// The number of the choice of clocks of which that is so. Where it is 0, every ranking is allowed, since each interval is.
pub fn parted_pattern(moves: Moves, part: Region, count: usize) -> usize
    requires { count ≤ 4 }
    ensures { result ≡ pattern (parted_at moves.each part) count }
{
    pattern_where(count, |z| is_parted(moves.each[z], part.intervals[z]))
}

// How an answer is remembered; 0 is none.
fn mark(allowed: bool) -> u8
    ensures { result ≡ 1 + one_if allowed }
{
    1 + u8::from(allowed)
}

// Whether the moves allow a region. The answer turns on its ranks and on the clocks that go by the fractional parts, and on nothing else of its intervals,
// so it is worked out once for all of those and remembered at their place.
#[tactic(auto, using(crate::proofs::Laws::Memo::marked_none, crate::proofs::Laws::Memo::marked_known, crate::proofs::Laws::Memo::marked_new))]
pub fn is_allowed(
    memo: &mut [u8],
    place: usize,
    parts: usize,
    moves: Moves,
    region: Region,
    n: usize,
) -> bool
    requires n_bound { n ≤ 4 }
    requires ranks_bound { moves.ranks ≤ 4 }
    requires place_in_bounds { place < length memo.old }
    requires ranks_value { parts ≡ 0 → placed_at moves.each moves.ranks n region.intervals region.ranks ≡ true }
    requires ranks_value_2 { at memo.old place ≡ 1 → placed_at moves.each moves.ranks n region.intervals region.ranks ≡ false }
    requires ranks_value_3 { at memo.old place ≡ 2 → placed_at moves.each moves.ranks n region.intervals region.ranks ≡ true }
    ensures allowed { result ≡ placed_at moves.each moves.ranks n region.intervals region.ranks }
    ensures memo { memo.new ≡ marked parts place result memo.old }
{
    if parts == 0 {
        return true;
    }
    match memo[place] {
        1 => false,
        2 => true,
        _ => {
            let allowed = moves.are_placed(region, n);
            memo[place] = mark(allowed);
            allowed
        }
    }
}
