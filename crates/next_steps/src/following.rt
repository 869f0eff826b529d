// The plain steps from one row of a list in the making: waiting, and then edge by edge, up to the first by which a new row is found.
// Bounds of a number stay clauses here: the check finds them at each call, and a type around the number would be opened at each use.
// What joins two parameters stays a clause here: a type of both would be made anew for each call, and taken apart in it.
ghost use Rattle.std.specs.Prelude.{◌≡◌, ℕ, suc, ◌≤◌};
ghost use Rattle.automata.specs.Row.{IsRow};
ghost use Rattle.regions.specs.Values.{bounds_of, row_of};
ghost use Rattle.table_files.specs.Admission.{table_of};
ghost use Rattle.tables.specs.Bounds.{edge_start};
ghost use Rattle.listed_rows.specs.RegionLists.{all_rows};
ghost use Rattle.next_steps.specs.Steps.{Follows};

use crate::asking::ask_at;
use crate::stride::Stride;
use listed_rows::region_list::RegionList;
use new_rows::waiting::new_by_waiting;
use regions::region::Region;
use table_records::decode::after_edge;
use tables::reading::first_edge;
use tables::table::Table;

// The plain steps from one of them on that is an edge.
fn follow_edges(table: &Table, list: &RegionList, row: Region, last: Stride) -> Stride
    requires clocks { list.now.clocks ≡ table.now.head.clocks }
    requires row { IsRow (bounds_of list.now.clocks) (row_of list.now.clocks.count row) }
    requires step_bound { last.step ≤ suc table.now.head.edges }
    requires by_index { (j : ℕ) × (last.step ≡ suc j) × (last.here ≡ edge_start table.now.head.clocks.count table.now.head.locations table.now.file.now j) }
    ensures follows { Follows (table_of table.now.file.now) (all_rows list.now) list.now.clocks.count last.step (row_of list.now.clocks.count row) last.entered result }
    ensures here { (j : ℕ) → result.step ≡ suc j → result.here ≡ edge_start table.now.head.clocks.count table.now.head.locations table.now.file.now j }
{
    let mut here = last.here;
    let mut entered = last.entered;
    let end = table.head.edges + 1;
    for step in last.step..end {
        let asked = ask_at(table, list, here, row, entered);
        entered = asked.entered;
        if asked.next.is_some() {
            return Stride {
                next: asked.next,
                step,
                here,
                entered,
                from: None,
            };
        }
        here = after_edge(table.file, here, table.head.clocks.count);
    }
    Stride {
        next: None,
        step: end,
        here,
        entered,
        from: None,
    }
}

// The plain steps from a row, from the last stride on.
pub fn follow_row(table: &Table, list: &RegionList, row: Region, last: Stride) -> Stride
    requires clocks { list.now.clocks ≡ table.now.head.clocks }
    requires row { IsRow (bounds_of list.now.clocks) (row_of list.now.clocks.count row) }
    requires step_bound { last.step ≤ suc table.now.head.edges }
    requires by_index { (j : ℕ) → last.step ≡ suc j → last.here ≡ edge_start table.now.head.clocks.count table.now.head.locations table.now.file.now j }
    ensures follows { Follows (table_of table.now.file.now) (all_rows list.now) list.now.clocks.count last.step (row_of list.now.clocks.count row) last.entered result }
    ensures here { (j : ℕ) → result.step ≡ suc j → result.here ≡ edge_start table.now.head.clocks.count table.now.head.locations table.now.file.now j }
{
    if last.step != 0 {
        return follow_edges(table, list, row, last);
    }
    let next = new_by_waiting(list, row, 2 * list.count);
    if next.is_some() {
        return Stride {
            next,
            from: None,
            ..last
        };
    }
    let waited = Stride {
        step: 1,
        here: first_edge(table.head.clocks.count, table.head.locations),
        ..last
    };
    follow_edges(table, list, row, waited)
}
