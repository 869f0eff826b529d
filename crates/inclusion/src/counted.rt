// Whether a region list has all regions on an edge's way, by their number: none is looked up. Those of its rows in the target that the moves allow are on the
// way, and no two are the same; so it has all of them just if it has as many as there are.
// Bounds of a number stay clauses here: the check finds them at each call, and a type around the number would be opened at each use.
// What joins two parameters stays a clause here: a type of both would be made anew for each call, and taken apart in it.
ghost use Rattle.std.specs.Prelude.{◌≡◌, ◌+◌, ◌*◌, ◌-◌, ◌≤◌, length};
ghost use Rattle.calls.specs.RegionFile.{row_width};
ghost use Rattle.edge_walk.specs.Choice.{allowsb};
ghost use Rattle.listed_rows.specs.Listed.{listed_row};
ghost use Rattle.inclusion.specs.Counted.{passing};

use edge_walk::search::Search;
use listed_rows::listed::row_at;
use regions::clock_move::Move;

// How many intervals a move permits, stretch by stretch.
fn permitted_intervals(asked: Move) -> usize
    requires { asked.top ≤ 32767 }
    ensures { result ≤ 32768 }
{
    let mut total: usize = 0;
    let mut interval = 0;
    while interval <= asked.top {
        let end = asked.next_stretch(interval);
        if asked.permits(interval) {
            total += usize::from(end - interval);
        }
        interval = end;
    }
    total
}

// Whether a way may have as many regions as a quarter of so many rows, so that it is cheaper to test each of the rows than to visit the way: as many
// choices of intervals as that. Either way would be right.
pub fn is_wide(s: Search, rows: usize) -> bool
    requires rows_bound { rows ≤ 4096 }
{
    let mut choices = 1;
    for asked in &s.moves.each[..s.clocks.count as usize] {
        choices *= permitted_intervals(*asked);
        if rows < 4 * choices {
            return true;
        }
    }
    false
}

// How many of the rows from start to before end the moves allow.
pub fn allowed_rows(list: &[u8], s: Search, start: usize, end: usize) -> usize
    requires start_le_end { (start ≤ end) × (end ≤ 4096) }
    requires count_in_bounds { 4 + end * row_width s.clocks.count ≤ length list.now }
    ensures { result ≡ passing (allowsb s) (listed_row s.clocks.count list.now) start (end - start) }
{
    let n = s.clocks.count as usize;
    (start..end)
        .filter(|i| s.allows(row_at(list, n, *i)))
        .count()
}
