// The records of a region list: refusals 7, 8 and 9.
// Bounds of a number stay clauses here: the check finds them at each call, and a type around the number would be opened at each use.
ghost use Rattle.std.specs.Prelude.{◌≡◌, ◌+◌, ◌*◌, ◌≤◌, length, drop, IfOk};
ghost use Rattle.table_files.specs.Reading.{records};
ghost use Rattle.table_files.specs.Admission.{table_of};
ghost use Rattle.calls.specs.RegionFile.{row_width, row_record, region_file, rows_of};
ghost use Rattle.region_lists.specs.RegionList.{Told};

use rows::row::{read_row, row_width};
use table_records::record::{record, two_bytes};
use table_records::refusal::{Fault, Refusal};
use tables::table::Table;

// Reads the row records of a list that is to have so many: refusal 7 or 8 at the first that is short, has another mark or is out of range.
fn read_rows(table: &Table, list: &[u8], count: u16) -> Result<(), Refusal>
    requires count_bound { count ≤ 4096 }
    ensures { Told (records (row_record (table_of table.now.file.now)) 1 count (drop 4 list.now)) result }
{
    let size = row_width(table.head.clocks.count as usize);
    let mut at = 4;
    for i in 0..count {
        read_row(list, at, table).map_err(|fault| fault.at(i + 1))?;
        at += size;
    }
    Ok(())
}

// Where so many rows of n clocks end.
fn list_end(count: u16, n: usize) -> usize
    requires { (count ≤ 4096) × (n ≤ 4) }
    ensures { result ≡ 4 + count * row_width n }
{
    4 + (count as usize) * row_width(n)
}

// Reads all records of a list, the header, its rows, and nothing after them: refusals 7 to 9, or the count of rows.
pub fn read_list(table: &Table, list: &[u8]) -> Result<u16, Refusal>
    ensures told { Told (region_file (table_of table.now.file.now) list.now) result }
    ensures counted { IfOk result (λ count. length (rows_of (table_of table.now.file.now) list.now) ≡ count) }
{
    let header = record(list, 0, 4, *b"RL");
    if header.is_empty() {
        return Err(Fault::ListCut.at(0));
    }
    let count = two_bytes(header, 2);
    if 4096 < count {
        return Err(Fault::ListRange.at(0));
    }
    read_rows(table, list, count)?;
    if list_end(count, table.head.clocks.count as usize) < list.len() {
        return Err(Fault::ListLong.at(1 + count));
    }
    Ok(count)
}
