// The first row of a region list that lacks a next row: refusal 17.
// What joins two parameters stays a clause here: a type of both would be made anew for each call, and taken apart in it.
ghost use Rattle.std.specs.Prelude.{◌≡◌};
ghost use Rattle.automata.specs.Next.{next_rows};
ghost use Rattle.table_files.specs.Admission.{table_of};
ghost use Rattle.walked_rows.specs.Open.{FirstOpen};
ghost use Rattle.open_rows.specs.Leading.{NextIn};

use crate::leading::first_by_edges;
use crate::waiting::first_by_waiting;
use listed_rows::region_list::RegionList;
use tables::table::Table;

// The first row that lacks a next row, or the count of rows. What a row lacks by waiting is looked up first; then only the rows before the first that was
// found are left, for each edge.
pub fn first_open(table: &Table, list: &RegionList) -> usize
    requires clocks { list.now.clocks ≡ table.now.head.clocks }
    ensures { FirstOpen (NextIn list.now (next_rows (table_of table.now.file.now))) 0 list.now.count result }
{
    let end = first_by_waiting(list);
    first_by_edges(table, list, end)
}
