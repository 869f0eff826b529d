// The row writer: a region as document 01's row record, written to the front of the lent bytes.
// Bounds of a number stay clauses here: the check finds them at each call, and a type around the number would be opened at each use.
ghost use Rattle.std.specs.Prelude.{◌≡◌, [], ◌∷◌, ◌++◌, ℕ, ◌+◌, ◌*◌, ◌≤◌, ◌<◌, length, take, drop};
ghost use Rattle.automata.specs.Clocks.{at};
ghost use Rattle.regions.specs.Values.{row_of};
ghost use Rattle.table_files.specs.Bytes.{RW};
ghost use Rattle.calls.specs.RegionFile.{row_width, row_bytes};

use regions::region::Region;

// Writes the mark and the location.
fn write_start(out: &mut [u8], location: u8)
    requires { 3 ≤ length out.old }
    ensures { out.new ≡ (RW ++ (location ∷ [])) ++ drop 3 out.old }
{
    out[..2].copy_from_slice(b"RW");
    out[2] = location;
}

// Writes n intervals, one byte each.
fn write_intervals(out: &mut [u8], n: usize, intervals: [u16; 4])
    requires n_bound { n ≤ 4 }
    requires n_in_bounds { n ≤ length out.old }
    requires by_index { (z : ℕ) → z < n → at intervals z < 256 }
    ensures { out.new ≡ take n intervals ++ drop n out.old }
{
    // one by one: each is narrowed on its way. The loop goes over all four, so that the compiler lays it out flat: with an end that it does not know a row
    // takes a quarter longer.
    for z in 0..4 {
        if z < n {
            out[z] = intervals[z] as u8;
        }
    }
}

// Writes n ranks.
fn write_ranks(out: &mut [u8], n: usize, ranks: [u8; 4])
    requires n_bound { n ≤ 4 }
    requires n_in_bounds { n ≤ length out.old }
    ensures { out.new ≡ take n ranks ++ drop n out.old }
{
    // as the intervals are written, and for the same reason
    for z in 0..4 {
        if z < n {
            out[z] = ranks[z];
        }
    }
}

// Writes the row record of a region of n clocks: the mark, the location, the intervals, the ranks. Later bytes stay.
pub fn write_row(out: &mut [u8], n: usize, region: Region)
    requires n_bound { n ≤ 4 }
    requires n_in_bounds { row_width n ≤ length out.old }
    requires by_index { (z : ℕ) → z < n → at region.intervals z < 256 }
    ensures { out.new ≡ row_bytes (row_of n region) ++ drop (row_width n) out.old }
{
    write_start(out, region.location);
    write_intervals(&mut out[3..], n, region.intervals);
    write_ranks(&mut out[3 + n..], n, region.ranks);
}
