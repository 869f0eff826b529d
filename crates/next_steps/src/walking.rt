// The other steps of a list in the making, edges that may lead to many rows: each is walked from few of the rows in its source, which tell for all, up to the
// first new row.
// Bounds of a number stay clauses here: the check finds them at each call, and a type around the number would be opened at each use.
// What joins two parameters stays a clause here: a type of both would be made anew for each call, and taken apart in it.
ghost use Rattle.std.specs.Prelude.{◌≡◌, false, true, ℕ, suc, ◌≤◌, ◌<◌, length, ltb, Some, IfSome};
ghost use Rattle.automata.specs.Row.{IsRow};
ghost use Rattle.automata.specs.Automaton.{edge};
ghost use Rattle.automata.specs.Closed.{Mem};
ghost use Rattle.automata.specs.Checks.{every, has};
ghost use Rattle.regions.specs.Values.{row_of, edge_of};
ghost use Rattle.table_files.specs.Admission.{table_of};
ghost use Rattle.tables.specs.Bounds.{edge_start};
ghost use Rattle.listed_rows.specs.RegionLists.{nth_row, all_rows};
ghost use Rattle.listed_rows.specs.EdgesInLists.{bounds_in, led_in};
ghost use Rattle.selection.specs.Chosen.{taken_at};
ghost use Rattle.kept_rows.specs.Births.{birth};
ghost use Rattle.new_rows.specs.New.{NewOf};
ghost use Rattle.next_steps.specs.Steps.{plain, due, Walks};
ghost use Rattle.next_steps.specs.Walking.{Old, OpenBy, WalkedBy};

use crate::stride::Stride;
use edge_walk::way::is_enabled;
use kept_rows::births::birth_at;
use listed_rows::edge_in_list::EdgeInList;
use listed_rows::listed::Span;
use listed_rows::region_list::RegionList;
use new_rows::walking::new_by_walk;
use regions::edge::Edge;
use regions::image::is_deterministic;
use regions::region::Region;
use table_records::decode::{after_edge, edge_from};
use tables::table::Table;
use walked_rows::fresh::some_open;

// A new row, and the row that was walked from.
#[derive(Clone, Copy)]
struct Walk {
    next: Region,
    from: Region,
}

// Tells of the rows which were found before the one of this number.
fn mark_old(list: &RegionList, first: usize, rows: Span, old: &mut [bool; 4096])
    requires within { (rows.start ≤ rows.end) × (rows.end ≤ list.now.count) }
    ensures { (i : ℕ) → rows.start ≤ i → i < rows.end → taken_at old.new i ≡ ltb (birth list.now.clocks.count list.now.bytes.now i) first }
{
    let n = list.clocks.count as usize;
    for i in rows.start..rows.end {
        old[i] = birth_at(list.bytes, n, i) < first;
    }
}

// A row from which the edge leads out of the list, or none.
fn open_by(edge: &EdgeInList, first: usize) -> Option<Region>
    requires old { Old edge.now first }
    ensures { OpenBy edge.now result }
{
    let list = &edge.list;
    let rows = list.rows_in(edge.e.source);
    let mut old = [false; 4096];
    mark_old(list, first, rows, &mut old);
    let open = some_open(edge, rows, &old);
    if rows.end <= open {
        return None;
    }
    Some(list.row(open))
}

// A new row that the edge leads to from a region, wherever that is. The floor is the new row before it, if there was one.
fn new_from(edge: &EdgeInList, from: Region, floor: Option<Region>) -> Option<Region>
    requires row { IsRow (bounds_in edge.now) (row_of edge.now.list.clocks.count from) }
    ensures { NewOf edge.now.list.clocks.count (led_in edge.now (row_of edge.now.list.clocks.count from)) (all_rows edge.now.list) result }
{
    if !is_enabled(edge.list.clocks, from, edge.e) {
        return None;
    }
    new_by_walk(edge, from, floor, 2 * edge.list.count)
}

// A new row that the edge leads to from one of the few rows after the one that was walked from last: rows that stand together often lead further together,
// and then no other row has to be chosen. It is a guess, and where it finds nothing, nothing is known.
fn walk_near(edge: &EdgeInList, last: Region) -> Option<Walk>
    ensures { IfSome result (λ walk. WalkedBy edge.now (Some walk)) }
{
    let list = &edge.list;
    let at = list.rows_below(last, 2 * list.count);
    for i in at + 1..list.count.min(at + 9) {
        let from = list.row(i);
        if let Some(next) = new_from(edge, from, None) {
            return Some(Walk { next, from });
        }
    }
    None
}

// A new row that the edge leads to from one of the rows: from the one that was walked from last, as long as there are some, and then from another one.
fn walk_edge(
    edge: &EdgeInList,
    first: usize,
    last: Option<Region>,
    floor: Option<Region>,
) -> Option<Walk>
    requires old { Old edge.now first }
    requires mem { (v : Region) → last ≡ Some v → Mem (row_of edge.now.list.clocks.count v) (all_rows edge.now.list) }
    ensures { WalkedBy edge.now result }
{
    if let Some(from) = last {
        if let Some(next) = new_from(edge, from, floor) {
            return Some(Walk { next, from });
        }
        let near = walk_near(edge, from);
        if near.is_some() {
            return near;
        }
    }
    let from = open_by(edge, first)?;
    let next = new_from(edge, from, None)?;
    Some(Walk { next, from })
}

// Whether an edge is left to the plain steps.
fn is_plain(table: &Table, e: Edge) -> bool
    requires by_index { (j : ℕ) × (j < table.now.head.edges) × (edge_of table.now.head.clocks.count e ≡ edge (table_of table.now.file.now) j) }
    ensures { (j : ℕ) → j < table.now.head.edges → edge_of table.now.head.clocks.count e ≡ edge (table_of table.now.file.now) j → result ≡ plain (table_of table.now.file.now) (suc j) }
{
    table.is_final(e.target) || is_deterministic(table.head.clocks.count as usize, e)
}

// The steps that are not plain, from all rows, from the last stride on, up to the first new row: one after that which was found last, of the rows that its
// edge leads to from where it was walked from, comes first. All rows that were found before this number are known to lead into the list by all of them.
pub fn walk_edges(table: &Table, list: &RegionList, first: usize, last: Stride) -> Stride
    requires clocks { list.now.clocks ≡ table.now.head.clocks }
    requires by_index { (m i : ℕ) → m ≤ table.now.head.edges → plain (table_of table.now.file.now) m ≡ false → i < list.now.count → birth list.now.clocks.count list.now.bytes.now i < first → every (has (all_rows list.now)) (due (table_of table.now.file.now) m (nth_row list.now i)) ≡ true }
    requires step_bound { last.step ≤ suc table.now.head.edges }
    requires by_index_2 { (j : ℕ) × (last.step ≡ suc j) × (last.here ≡ edge_start table.now.head.clocks.count table.now.head.locations table.now.file.now j) }
    requires mem { (v : Region) → last.from ≡ Some v → Mem (row_of list.now.clocks.count v) (all_rows list.now) }
    ensures walks { Walks (table_of table.now.file.now) (all_rows list.now) list.now.clocks.count last.step result }
    ensures entered { result.entered ≡ last.entered }
    ensures here { (j : ℕ) → result.step ≡ suc j → result.here ≡ edge_start table.now.head.clocks.count table.now.head.locations table.now.file.now j }
{
    let n = table.head.clocks.count;
    let mut from = last.from;
    let mut here = last.here;
    let end = table.head.edges + 1;
    for step in last.step..end {
        let e = edge_from(table.file, here, n);
        if !is_plain(table, e)
            && let Some(walk) = walk_edge(&list.left_by(e), first, from, last.next)
        {
            return Stride {
                next: Some(walk.next),
                step,
                here,
                entered: last.entered,
                from: Some(walk.from),
            };
        }
        from = None;
        here = after_edge(table.file, here, n);
    }
    Stride {
        next: None,
        step: end,
        here,
        entered: last.entered,
        from: None,
    }
}
