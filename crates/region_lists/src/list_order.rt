// The rows of a region list, one by one: refusals 14 and 15.
// What joins two parameters stays a clause here: a type of both would be made anew for each call, and taken apart in it.
ghost use Rattle.std.specs.Prelude.{◌≡◌, List, ℕ, ◌<◌};
ghost use Rattle.table_files.specs.Admission.{table_of};
ghost use Rattle.calls.specs.RegionFile.{ascending, none_final};
ghost use Rattle.listed_rows.specs.Listed.{listed_row, listed_rows, Listed};
ghost use Rattle.region_lists.specs.RegionList.{passed};

use listed_rows::listed::{location_at, row_at, row_is_below};
use regions::clocks::Clocks;
use table_records::refusal::{Fault, Refusal};
use tables::table::Table;

// Checks that each row is above the one before: refusal 14 at the first that is not.
pub fn ascending(list: &[u8], clocks: Clocks, count: usize) -> Result<(), Refusal>
    requires { Listed clocks list.now count }
    ensures { (file : List ℕ) → ascending 1 (listed_rows clocks.count list.now count) file ≡ passed result file }
{
    let n = clocks.count as usize;
    match (1..count).find(|&i| !row_is_below(list, n, i - 1, row_at(list, n, i))) {
        Some(i) => Err(Fault::RowsNotAscending.at((i + 1) as u16)),
        None => Ok(()),
    }
}

// Checks that no row has a final location: refusal 15 at the first that has.
pub fn none_final(table: &Table, list: &[u8], count: usize) -> Result<(), Refusal>
    requires listed { Listed table.now.head.clocks list.now count }
    requires by_index { (i : ℕ) → i < count → (listed_row table.now.head.clocks.count list.now i).location < table.now.head.locations }
    ensures { (file : List ℕ) → none_final (table_of table.now.file.now) 1 (listed_rows table.now.head.clocks.count list.now count) file ≡ passed result file }
{
    let n = table.head.clocks.count as usize;
    match (0..count).find(|&i| table.is_final(location_at(list, n, i))) {
        Some(i) => Err(Fault::RowFinal.at((i + 1) as u16)),
        None => Ok(()),
    }
}
