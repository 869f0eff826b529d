// How long the file of a list that was made from a table is.
ghost use Rattle.std.specs.Prelude.{◌≡◌, ◌+◌, ◌*◌, ◌≤◌, length};
ghost use Rattle.automata.specs.Automaton.{clocks};
ghost use Rattle.table_files.specs.Admission.{table_of};
ghost use Rattle.table_files.specs.Meaning.{Passes};
ghost use Rattle.tables.specs.Values.{answer_of};
ghost use Rattle.calls.specs.RegionFile.{row_width};
ghost use Rattle.calls.specs.Making.{make_answer};
ghost use Rattle.calls.specs.Program.{longest_list, made_file};

use rows::row::row_width;
use tables::admission::open;
use tables::answer::Answer;

// The bytes of a list of so many rows of the table: its header and the rows. Of a table that is refused there is no list.
fn list_length(table: &[u8], rows: u16) -> usize
    ensures { Passes table.now → result ≡ 4 + rows * row_width (clocks (table_of table.now)) }
{
    let Ok(opened) = open(table) else {
        return 0;
    };
    4 + (rows as usize) * row_width(opened.head.clocks.count as usize)
}

// The bytes of the file of the list that was made from the table with this answer; none after a refusal.
pub fn made_length(table: &[u8], answer: Answer) -> usize
    ensures { answer_of answer ≡ make_answer table.now longest_list 4096 → result ≡ length (made_file table.now) }
{
    match answer {
        Ok(rows) => list_length(table, rows),
        Err(_) => 0,
    }
}
