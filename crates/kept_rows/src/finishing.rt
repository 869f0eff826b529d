// The end of making a list: its header and its marks are written, or the buffer is cleared.
// Bounds of a number stay clauses here: the check finds them at each call, and a type around the number would be opened at each use.
ghost use Rattle.std.specs.Prelude.{◌≡◌, ◌++◌, ◌+◌, ◌*◌, ◌≤◌, length, take, drop, replicate};
ghost use Rattle.table_files.specs.Bytes.{RL, two_bytes};
ghost use Rattle.calls.specs.RegionFile.{row_width, rows_bytes, list_bytes};
ghost use Rattle.listed_rows.specs.Listed.{listed_rows};

use crate::births::write_two;
use rows::row::row_width;

// Writes the header of a list of so many rows.
fn write_header(out: &mut [u8], count: usize)
    requires { (4 ≤ length out.old) × (count ≤ 4096) }
    ensures { out.new ≡ (RL ++ two_bytes count) ++ drop 4 out.old }
{
    out[..2].copy_from_slice(b"RL");
    write_two(out, 2, count);
}

// Writes the marks of so many rows, over their births.
fn write_marks(out: &mut [u8], n: usize, count: usize)
    requires n_bound { n ≤ 4 }
    requires count_bound { count ≤ 4096 }
    requires n_in_bounds { 4 + count * row_width n ≤ length out.old }
    ensures { out.new ≡ (take 4 out.old ++ rows_bytes (listed_rows n out.old count)) ++ drop (4 + count * row_width n) out.old }
{
    let size = row_width(n);
    for i in 0..count {
        let at = 4 + i * size;
        out[at..at + 2].copy_from_slice(b"RW");
    }
}

// Makes the kept rows a region list: its header and the rows' marks are written. Later bytes stay.
pub fn finish(out: &mut [u8], n: usize, count: usize)
    requires n_bound { n ≤ 4 }
    requires count_bound { count ≤ 4096 }
    requires n_in_bounds { 4 + count * row_width n ≤ length out.old }
    ensures { out.new ≡ list_bytes (listed_rows n out.old count) ++ drop (4 + count * row_width n) out.old }
{
    write_marks(out, n, count);
    write_header(out, count);
}

// Makes all bytes 0.
pub fn clear(out: &mut [u8])
    ensures { out.new ≡ replicate (length out.old) 0 }
{
    out.fill(0);
}
