// The admission of a table file.
ghost use Rattle.std.specs.Prelude.{◌≡◌, List, ℕ};
ghost use Rattle.automata.specs.Row.{Row};
ghost use Rattle.automata.specs.Automaton.{Admitted};
ghost use Rattle.automata.specs.Run.{Reached};
ghost use Rattle.automata.specs.Closed.{Closed, ExactlyOne};
ghost use Rattle.table_files.specs.Answer.{accepted};
ghost use Rattle.table_files.specs.Admission.{admission, table_of};
ghost use Rattle.tables.specs.Values.{answer_of};
ghost use Rattle.tables.specs.Tables.{Opens};

use crate::answer::Answer;
use crate::bounds::edges_bounded;
use crate::table::Table;
use table_records::edge::edges;
use table_records::header::header;
use table_records::location::locations;
use table_records::refusal::{Fault, Refusal};

// The table that the file says; or the first of refusals 1 to 6 that applies.
pub fn open(file: &[u8]) -> Result<Table<'_>, Refusal>
    ensures { Opens file.now result }
{
    let head = header(file)?;
    let first = locations(file, 7 + (head.clocks.count as usize), head.locations)?;
    let end = edges(file, first, head.clocks.count, head.locations, head.edges)?;
    if end < file.len() {
        return Err(Fault::TableLong.at(1 + (head.locations as u16) + head.edges));
    }
    let bounds = &head.clocks.bounds[..head.clocks.count as usize];
    edges_bounded(file, first, bounds, head.locations, head.edges)?;
    Ok(Table { file, head })
}

// Admits a table, or refuses it.
#[tactic(auto, unfolding(table_files::specs::Admission::admission))]
pub fn admission(file: &[u8]) -> Answer
    ensures answer { answer_of result ≡ admission file.now }
    ensures admitted { (k : ℕ) → answer_of result ≡ accepted k → Admitted (table_of file.now) × ExactlyOne (Reached (table_of file.now)) ((rows : List Row) × Closed (table_of file.now) rows) }
{
    let head = open(file)?.head;
    Ok(1 + (head.locations as u16) + head.edges)
}
