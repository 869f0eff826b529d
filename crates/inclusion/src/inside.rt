// Whether a region list has all regions that an edge leads to from one of its regions: a walk over their intervals that stops at the first
// that is not listed. They are met ascending, so each is looked up from where the one before it was.
// What joins two parameters stays a clause here: a type of both would be made anew for each call, and taken apart in it.
ghost use Rattle.std.specs.Prelude.{◌≡◌, true, not, ◌||◌, is_ok};
ghost use Rattle.automata.specs.Row.{IsRow};
ghost use Rattle.automata.specs.Successors.{guardsb, edge_rows};
ghost use Rattle.automata.specs.Checks.{every, has};
ghost use Rattle.regions.specs.Values.{bounds_of, row_of, edge_of};
ghost use Rattle.rankings.specs.Ranking.{InRange};
ghost use Rattle.edge_walk.specs.Stand.{Ahead, Standing};
ghost use Rattle.edge_walk.specs.Intervals.{Chosen};
ghost use Rattle.edge_walk.specs.Visit.{AllPass};
ghost use Rattle.ranked_ways.specs.Allowed.{rows_allowed, rows_chosen, Permitted};
ghost use Rattle.ranked_ways.specs.Memo.{Kept};
ghost use Rattle.listed_rows.specs.RegionLists.{all_rows};

use crate::counted::{allowed_rows, is_wide};
use edge_walk::search::Search;
use edge_walk::stand::{Stand, start_in};
use edge_walk::way::open_way;
use listed_rows::edge_in_list::EdgeInList;
use listed_rows::region_list::RegionList;
use ranked_ways::ranked_way::{is_allowed, parted_pattern};
use rankings::ranking::{all_rankings, first_ranking, ranked_from, rankings_of};
use rankings::table::Rankings;
use regions::region::Region;
use way_counts::way_count::way_count;

// Looks a region up if it is wanted. Where it is not, nothing is missing.
fn find_if(list: &RegionList, region: Region, hint: usize, wanted: bool) -> Result<usize, usize>
    ensures { is_ok result ≡ (not wanted || has (all_rows list.now) (row_of list.now.clocks.count region)) }
{
    if !wanted {
        return Ok(hint);
    }
    list.find(region, hint)
}

// Whether all regions with the part's intervals that the moves allow are in the list: up to the first that is not.
fn ranked_inside(
    list: &RegionList,
    memo: &mut [u8],
    rankings: &Rankings,
    search: Search,
    part: Region,
    hint: usize,
) -> Result<usize, usize>
    requires clocks { search.clocks ≡ list.now.clocks }
    requires in_range { InRange search.clocks part }
    requires permitted { Permitted search part }
    requires kept { Kept search memo.old }
    ensures listed { is_ok result ≡ every (has (all_rows list.now)) (rows_allowed search part) }
    ensures memo { Kept search memo.new }
{
    let clocks = search.clocks;
    let moves = search.moves;
    let n = clocks.count as usize;
    let parts = parted_pattern(moves, part, n);
    let first = first_ranking(clocks, part);
    let mut last = hint;
    for j in 0..rankings_of(clocks, part) {
        let region = ranked_from(rankings, clocks, part, first, j);
        let wanted = is_allowed(memo, parts * 150 + (first + j), parts, moves, region, n);
        last = find_if(list, region, last, wanted)?;
    }
    Ok(last)
}

// Whether all those are in the list where a walk over the intervals has chosen all of them; elsewhere nothing is missing. The list may have every region
// of these intervals, and then it does not matter which of them the moves allow.
fn look(
    list: &RegionList,
    memo: &mut [u8],
    rankings: &Rankings,
    search: Search,
    stand: Stand,
    hint: usize,
) -> Result<usize, usize>
    requires clocks { search.clocks ≡ list.now.clocks }
    requires chosen { Chosen search stand }
    requires kept { Kept search memo.old }
    ensures listed { is_ok result ≡ every (has (all_rows list.now)) (rows_chosen search stand) }
    ensures memo { Kept search memo.new }
{
    if stand.depth != 1 + (search.clocks.count as usize) {
        return Ok(hint);
    }
    let part = stand.part;
    match list.has_all_ranked(part, hint) {
        Ok(end) => Ok(end),
        Err(first) => ranked_inside(list, memo, rankings, search, part, first),
    }
}

// Whether every region that is ahead of a walk which stands there is in the list.
pub fn all_inside(
    list: &RegionList,
    search: Search,
    start: Stand,
    hint: usize,
) -> Result<usize, usize>
    requires clocks { search.clocks ≡ list.now.clocks }
    requires standing { Standing search start }
    requires chosen { Chosen search start }
    ensures { AllPass (Ahead search start) (has (all_rows list.now)) (is_ok result) }
{
    let rankings = all_rankings();
    let mut memo = [0u8; 2400];
    let mut stand = start;
    let mut last = hint;
    while 0 < stand.depth {
        last = look(list, &mut memo, &rankings, search, stand, last)?;
        stand = search.step_intervals(stand);
    }
    Ok(last)
}

// Whether every region that an edge leads to from this one, where its guards hold, is in the list. Where there may be many of them they are counted, and
// none is visited.
pub fn leads_inside(edge: &EdgeInList, from: Region, hint: usize) -> Result<usize, usize>
    requires row { IsRow (bounds_of edge.now.list.clocks) (row_of edge.now.list.clocks.count from) }
    requires location_value { from.location ≡ edge.now.e.source }
    requires e_value { guardsb (row_of edge.now.list.clocks.count from) (edge_of edge.now.list.clocks.count edge.now.e).guards ≡ true }
    ensures { is_ok result ≡ every (has (all_rows edge.now.list)) (edge_rows (bounds_of edge.now.list.clocks) (edge_of edge.now.list.clocks.count edge.now.e) (row_of edge.now.list.clocks.count from)) }
{
    let list = &edge.list;
    let into = edge.into;
    let Some(way) = open_way(list.clocks, from, edge.e) else {
        return Ok(hint);
    };
    let search = way.search;
    if is_wide(search, into.end - into.start) {
        let met = allowed_rows(list.bytes, search, into.start, into.end);
        return if met == way_count(way) {
            Ok(hint)
        } else {
            Err(hint)
        };
    }
    all_inside(list, search, start_in(way.target), hint)
}
