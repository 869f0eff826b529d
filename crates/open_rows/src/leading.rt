// The first row of a region list from which an edge leads out of it.
// What joins two parameters stays a clause here: a type of both would be made anew for each call, and taken apart in it.
ghost use Rattle.std.specs.Prelude.{◌≡◌, ℕ, ◌≤◌};
ghost use Rattle.automata.specs.Next.{by_edges};
ghost use Rattle.table_files.specs.Admission.{table_of};
ghost use Rattle.listed_rows.specs.EdgesInLists.{InSource};
ghost use Rattle.walked_rows.specs.Open.{FirstOpen};
ghost use Rattle.walked_rows.specs.Leading.{LeadsIn};
ghost use Rattle.open_rows.specs.Leading.{NextIn};

use crate::alike::first_alike;
use crate::imaging::first_by_image;
use crate::turning::first_by_walks;
use listed_rows::edge_in_list::EdgeInList;
use listed_rows::listed::Span;
use listed_rows::region_list::RegionList;
use regions::image::is_deterministic;
use skylines::alike::reads_none;
use skylines::sides::is_choice;
use table_records::decode::{after_edge, edge_from};
use tables::reading::first_edge;
use tables::table::Table;
use walked_rows::sides::by_sides;

// The first of the rows from which the edge leads out of the list, or their end. Where it asks for any value but a clock's, it is taken by its sides, one
// choice after the other: by one side it leads no further from many rows, by both from none.
fn first_by_sides(edge: &EdgeInList, rows: Span) -> usize
    requires in_source { InSource edge.now rows }
    ensures { FirstOpen (LeadsIn edge.now) rows.start rows.end result }
{
    let mut first = rows.end;
    for k in 0..16 {
        if is_choice(edge.list.clocks.count as usize, edge.e, k) {
            let left = Span {
                start: rows.start,
                end: first,
            };
            first = first_by_walks(&by_sides(edge, k), left);
        }
    }
    first
}

// The first of the rows, all in the edge's source, from which it leads out of the list, or their end.
fn first_in_source(edge: &EdgeInList, rows: Span) -> usize
    requires in_source { InSource edge.now rows }
    ensures { FirstOpen (LeadsIn edge.now) rows.start rows.end result }
{
    let n = edge.list.clocks.count as usize;
    if is_deterministic(n, edge.e) {
        first_by_image(edge, rows)
    } else if reads_none(n, edge.e) {
        first_alike(edge, rows)
    } else {
        first_by_sides(edge, rows)
    }
}

// The first row before end from which the edge leads out of the list, or end. Rows ascend, so those in the edge's source location stand together.
fn first_by_edge(edge: &EdgeInList, end: usize) -> usize
    requires { end ≤ edge.now.list.count }
    ensures { FirstOpen (LeadsIn edge.now) 0 end result }
{
    let source = edge.list.rows_in(edge.e.source);
    if end <= source.start {
        return end;
    }
    if end <= source.end {
        let before = Span {
            start: source.start,
            end,
        };
        return first_in_source(edge, before);
    }
    let first = first_in_source(edge, source);
    if first < source.end { first } else { end }
}

// The first row before end from which some edge leads out of the list, or end: edge by edge, so that each is read once, and only from the rows before the
// first that was found by those before it.
pub fn first_by_edges(table: &Table, list: &RegionList, end: usize) -> usize
    requires clocks { list.now.clocks ≡ table.now.head.clocks }
    requires end_le_count { end ≤ list.now.count }
    ensures { FirstOpen (NextIn list.now (by_edges (table_of table.now.file.now))) 0 end result }
{
    let n = table.head.clocks.count;
    let mut first = end;
    let mut at = first_edge(n, table.head.locations);
    for _ in 0..table.head.edges {
        let edge = list.left_by(edge_from(table.file, at, n));
        first = first_by_edge(&edge, first);
        at = after_edge(table.file, at, n);
    }
    first
}
