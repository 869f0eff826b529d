// Writing the rows of all regions that an edge leads to. The walk chooses their intervals; the regions of the same intervals stand together, and their ranks
// are read from a table.
// Bounds of a number stay clauses here: the check finds them at each call, and a type around the number would be opened at each use.
// What joins two parameters stays a clause here: a type of both would be made anew for each call, and taken apart in it.
ghost use Rattle.std.specs.Prelude.{◌≡◌, ℕ, ◌≤◌, ◌<◌, length};
ghost use Rattle.automata.specs.Clocks.{at};
ghost use Rattle.regions.specs.Values.{row_of};
ghost use Rattle.rankings.specs.Ranking.{InRange};
ghost use Rattle.edge_walk.specs.Intervals.{Chosen};
ghost use Rattle.edge_walk.specs.Way.{rows_on};
ghost use Rattle.calls.specs.RegionFile.{rows_bytes};
ghost use Rattle.ranked_ways.specs.Allowed.{rows_allowed, rows_chosen, Permitted};
ghost use Rattle.ranked_ways.specs.Memo.{Kept};
ghost use Rattle.following.specs.Writing.{Low, Holds, row_if};

use edge_walk::search::Search;
use edge_walk::stand::{Stand, start_in};
use edge_walk::way::Way;
use ranked_ways::ranked_way::{is_allowed, parted_pattern};
use rankings::ranking::{all_rankings, first_ranking, ranked_from, rankings_of};
use rankings::table::Rankings;
use regions::region::Region;
use rows::row::row_width;
use rows::row_writer::write_row;

// Writes the row of a region of n clocks if it is wanted, and tells in how many bytes.
fn write_if(buffer: &mut [u8], n: usize, region: Region, wanted: bool) -> usize
    requires n_bound { n ≤ 4 }
    requires by_index { (z : ℕ) → z < n → at region.intervals z < 256 }
    requires region_in_bounds { length (rows_bytes (row_if wanted (row_of n region))) ≤ length buffer.old }
    ensures bytes { result ≡ length (rows_bytes (row_if wanted (row_of n region))) }
    ensures rows { Holds (row_if wanted (row_of n region)) buffer.old buffer.new }
{
    if !wanted {
        return 0;
    }
    write_row(buffer, n, region);
    row_width(n)
}

// Writes the rows of all regions with these intervals that the moves allow, ascending, and tells in how many bytes.
fn write_ranked(
    buffer: &mut [u8],
    memo: &mut [u8],
    rankings: &Rankings,
    search: Search,
    part: Region,
) -> usize
    requires low { Low search.clocks }
    requires in_range { InRange search.clocks part }
    requires permitted { Permitted search part }
    requires kept { Kept search memo.old }
    requires part_in_bounds { length (rows_bytes (rows_allowed search part)) ≤ length buffer.old }
    ensures bytes { result ≡ length (rows_bytes (rows_allowed search part)) }
    ensures rows { Holds (rows_allowed search part) buffer.old buffer.new }
    ensures memo { Kept search memo.new }
{
    let clocks = search.clocks;
    let moves = search.moves;
    let n = clocks.count as usize;
    let parts = parted_pattern(moves, part, n);
    let first = first_ranking(clocks, part);
    let count = rankings_of(clocks, part);
    let mut at = 0;
    for j in 0..count {
        let region = ranked_from(rankings, clocks, part, first, j);
        let wanted = is_allowed(memo, parts * 150 + (first + j), parts, moves, region, n);
        at += write_if(&mut buffer[at..], n, region, wanted);
    }
    at
}

// Writes those rows where a walk over the intervals has chosen all of them, and none elsewhere; tells in how many bytes.
fn write_chosen(
    buffer: &mut [u8],
    memo: &mut [u8],
    rankings: &Rankings,
    search: Search,
    stand: Stand,
) -> usize
    requires low { Low search.clocks }
    requires chosen { Chosen search stand }
    requires kept { Kept search memo.old }
    requires stand_in_bounds { length (rows_bytes (rows_chosen search stand)) ≤ length buffer.old }
    ensures bytes { result ≡ length (rows_bytes (rows_chosen search stand)) }
    ensures rows { Holds (rows_chosen search stand) buffer.old buffer.new }
    ensures memo { Kept search memo.new }
{
    if stand.depth != 1 + search.clocks.count as usize {
        return 0;
    }
    write_ranked(buffer, memo, rankings, search, stand.part)
}

// Writes the rows of all regions on a way, ascending, each from the next free byte on; tells in how many bytes.
pub fn write_all(buffer: &mut [u8], way: Way) -> usize
    requires low { Low way.search.clocks }
    requires way_in_bounds { length (rows_bytes (rows_on way)) ≤ length buffer.old }
    ensures bytes { result ≡ length (rows_bytes (rows_on way)) }
    ensures rows { Holds (rows_on way) buffer.old buffer.new }
{
    let search = way.search;
    let rankings = all_rankings();
    let mut memo = [0u8; 2400];
    let mut stand = start_in(way.target);
    let mut at = 0;
    while 0 < stand.depth {
        at += write_chosen(&mut buffer[at..], &mut memo, &rankings, search, stand);
        stand = search.step_intervals(stand);
    }
    at
}
