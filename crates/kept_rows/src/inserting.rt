// A new row, put into its place among the ascending rows of a list in the making.
ghost use Rattle.std.specs.Prelude.{◌≡◌, ◌+◌, ◌*◌, ◌≤◌, ◌<◌, length};
ghost use Rattle.automata.specs.Row.{IsRow};
ghost use Rattle.regions.specs.Values.{bounds_of, row_of};
ghost use Rattle.calls.specs.RegionFile.{row_width};
ghost use Rattle.listed_rows.specs.Listed.{Listed};
ghost use Rattle.kept_rows.specs.Inserted.{Inserted};

use crate::births::write_two;
use regions::clocks::Clocks;
use regions::region::Region;
use rows::row::row_width;
use rows::row_writer::write_row;

// Puts the row of a region among so many rows, after the first `at` of them. The later ones move up, and its birth is the count of rows that were there.
pub fn insert(out: &mut [u8], clocks: Clocks, count: usize, at: usize, region: Region)
    requires listed { Listed clocks out.old count }
    requires at_le_count { (at ≤ count) × (count < 4096) }
    requires count_in_bounds { 4 + (count + 1) * row_width clocks.count ≤ length out.old }
    requires row { IsRow (bounds_of clocks) (row_of clocks.count region) }
    ensures { Inserted clocks.count out.old count at (row_of clocks.count region) out.new }
{
    let n = clocks.count as usize;
    let size = row_width(n);
    let start = 4 + at * size;
    out.copy_within(start..4 + count * size, start + size);
    write_row(&mut out[start..], n, region);
    write_two(out, start, count);
}
