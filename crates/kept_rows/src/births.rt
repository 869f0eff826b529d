// Births: in which order the rows of a list in the making were found.
// Bounds of a number stay clauses here: the check finds them at each call, and a type around the number would be opened at each use.
ghost use Rattle.std.specs.Prelude.{◌≡◌, ◌++◌, ◌+◌, ◌≤◌, ◌<◌, length, take, drop};
ghost use Rattle.table_files.specs.Bytes.{two_bytes};
ghost use Rattle.listed_rows.specs.Listed.{HasRow};
ghost use Rattle.kept_rows.specs.Births.{birth};

use rows::row::row_width;
use table_records::record::two_bytes;

// The birth of row i: how many rows were kept before it.
pub fn birth_at(list: &[u8], n: usize, i: usize) -> usize
    requires n_bound { n ≤ 4 }
    requires has_row { HasRow n list.now i }
    ensures { result ≡ birth n list.now i }
{
    two_bytes(list, 4 + i * row_width(n)) as usize
}

// Writes the two bytes of a number at a position, the high byte first.
pub fn write_two(out: &mut [u8], at: usize, number: usize)
    requires at_in_bounds { at + 2 ≤ length out.old }
    requires number_bound { number < 65536 }
    ensures { out.new ≡ take at out.old ++ (two_bytes number ++ drop (at + 2) out.old) }
{
    out[at..at + 2].copy_from_slice(&(number as u16).to_be_bytes());
}
