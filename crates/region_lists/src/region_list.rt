// The check of a region list against a table.
ghost use Rattle.std.specs.Prelude.{◌≡◌, ◌↔◌, List, ℕ, ◌≤◌, length, Ok};
ghost use Rattle.automata.specs.Row.{Row};
ghost use Rattle.automata.specs.Run.{Reached};
ghost use Rattle.automata.specs.Closed.{Closed};
ghost use Rattle.table_files.specs.Answer.{accepted};
ghost use Rattle.table_files.specs.Reading.{answered};
ghost use Rattle.table_files.specs.Admission.{table_of};
ghost use Rattle.table_files.specs.Meaning.{Passes};
ghost use Rattle.tables.specs.Values.{answer_of};
ghost use Rattle.calls.specs.RegionFile.{region_file, rows_of, list_checked, list_answer, list_bytes};
ghost use Rattle.calls.specs.Meaning.{RegionListOf};
ghost use Rattle.region_lists.specs.RegionList.{Told};

use crate::list_order::{ascending, none_final};
use crate::list_records::read_list;
use listed_rows::region_list::RegionList;
use open_rows::open::first_open;
use rows::row::initial_row;
use table_records::refusal::Fault;
use tables::admission::open;
use tables::answer::Answer;
use tables::table::Table;

// Checks the rows of a list whose records were read: refusals 14 to 17, each over all the rows before the next, or the count of rows.
fn check_rows(table: &Table, list: &[u8], count: u16) -> Answer
    requires told { Told (region_file (table_of table.now.file.now) list.now) (Ok count) }
    requires list_len { length (rows_of (table_of table.now.file.now) list.now) ≡ count }
    ensures { answer_of result ≡ answered length (list_checked (table_of table.now.file.now) list.now) }
{
    let rows = count as usize;
    ascending(list, table.head.clocks, rows)?;
    none_final(table, list, rows)?;
    let listed = RegionList {
        clocks: table.head.clocks,
        bytes: list,
        count: rows,
    };
    if !listed.has(initial_row(table.head.initial)) {
        return Err(Fault::InitialRowMissing.at(0));
    }
    let first = first_open(table, &listed);
    if first < rows {
        return Err(Fault::NextRowMissing.at((first + 1) as u16));
    }
    Ok(count)
}

// Checks a region list against a table: refusals 1 to 9 and 14 to 17, or the count of rows.
pub fn check_regions(table: &[u8], list: &[u8]) -> Answer
    ensures answer { answer_of result ≡ list_answer table.now list.now }
    ensures closed { (k : ℕ) → (answer_of result ≡ accepted k) ↔ (Passes table.now × RegionListOf (table_of table.now) list.now k) }
    ensures empty { (k : ℕ) → answer_of result ≡ accepted k → Reached (table_of table.now) → ⊥ }
    ensures complete { Passes table.now → (rows : List Row) → Closed (table_of table.now) rows → length rows ≤ 4096 → list.now ≡ list_bytes rows → answer_of result ≡ accepted (length rows) }
{
    let opened = open(table)?;
    let count = read_list(&opened, list)?;
    check_rows(&opened, list, count)
}
