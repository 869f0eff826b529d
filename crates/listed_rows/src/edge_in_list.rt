// An edge by which rows of a region list are left.
ghost use Rattle.std.specs.Prelude.{◌≡◌, true, ℕ, ◌+◌, ◌*◌, ◌≤◌, ◌<◌, length};
ghost use Rattle.automata.specs.Clocks.{at};
ghost use Rattle.automata.specs.Edge.{Bounded};
ghost use Rattle.automata.specs.Rows.{isrowb};
ghost use Rattle.regions.specs.Values.{bounds_of, edge_of, region_of};
ghost use Rattle.calls.specs.RegionFile.{row_width};
ghost use Rattle.listed_rows.specs.Listed.{listed_row};
ghost use Rattle.listed_rows.specs.Located.{RowsIn};
ghost use Rattle.listed_rows.specs.Props.{bounded_prop, rows_in_prop};

use crate::listed::{Span, row_at};
use crate::region_list::RegionList;
use regions::clocks::Clocks;
use regions::edge::Edge;
use regions::region::Region;

// The list, an edge over its clocks, and where the rows of the edge's target stand.
#[derive(Clone, Copy)]
pub struct EdgeInList<'a> {
    pub list: RegionList<'a>,
    pub e: Edge,
    pub into: Span,
    ghost bounded: { Bounded (bounds_of list.clocks) (edge_of list.clocks.count e) } by { bounded_prop _ _ },
    ghost rows_in: { RowsIn list.clocks.count list.bytes.now list.count e.target into.start into.end } by { rows_in_prop _ _ _ _ _ _ },
}

impl<'a> RegionList<'a> {
    // An edge over the same clocks by which rows of the list are left.
    pub fn left_by(&self, e: Edge) -> EdgeInList<'a>
        requires bounded { Bounded (bounds_of self.now.clocks) (edge_of self.now.clocks.count e) }
        ensures list { result.list ≡ self.now }
        ensures e { result.e ≡ e }
    {
        EdgeInList {
            list: *self,
            e,
            into: self.rows_in(e.target),
        }
    }
}

// The bytes, in which so many rows of these clocks stand after the header, in any order, and an edge over the clocks: for who compares rows by where the edge
// leads from them, and asks neither that the rows ascend nor where it leads into.
#[derive(Clone, Copy)]
pub struct EdgeOverRows<'a> {
    pub clocks: Clocks,
    pub bytes: &'a [u8],
    pub count: usize,
    pub e: Edge,
    ghost sized: { length (bounds_of clocks) ≡ clocks.count },
    ghost low: { (z : ℕ) → z < clocks.count → at clocks.bounds z ≤ 127 },
    ghost short: { count ≤ 4096 },
    ghost room: { 4 + count * row_width clocks.count ≤ length bytes.now },
    ghost are_rows: { (i : ℕ) → i < count → isrowb (bounds_of clocks) (listed_row clocks.count bytes.now i) ≡ true },
    ghost bounded: { Bounded (bounds_of clocks) (edge_of clocks.count e) } by { bounded_prop _ _ },
}

impl EdgeOverRows<'_> {
    // Row i.
    pub fn row(&self, i: usize) -> Region
        requires i_lt_count { i < self.now.count }
        ensures { result ≡ region_of (listed_row self.now.clocks.count self.now.bytes.now i) }
    {
        row_at(self.bytes, self.clocks.count as usize, i)
    }
}

impl<'a> EdgeInList<'a> {
    // The edge over the rows of its list, without their order, and without where the rows of its target stand.
    pub fn over_rows(&self) -> EdgeOverRows<'a>
        ensures clocks { result.clocks ≡ self.now.list.clocks }
        ensures bytes { result.bytes ≡ self.now.list.bytes }
        ensures count { result.count ≡ self.now.list.count }
        ensures e { result.e ≡ self.now.e }
    {
        EdgeOverRows {
            clocks: self.list.clocks,
            bytes: self.list.bytes,
            count: self.list.count,
            e: self.e,
        }
    }
}
