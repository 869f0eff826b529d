// Making a region list from a table: a loop over the waiting rows, which are lent as records. Here alone they are touched, each turn one stored and one taken;
// all else is done by `turn`.
ghost use Rattle.std.specs.Prelude.{◌≡◌, ℕ, length, replicate};
ghost use Rattle.automata.specs.Run.{Reached};
ghost use Rattle.table_files.specs.Answer.{accepted, refused};
ghost use Rattle.table_files.specs.Admission.{table_of};
ghost use Rattle.table_files.specs.Meaning.{Passes};
ghost use Rattle.tables.specs.Values.{answer_of};
ghost use Rattle.calls.specs.RegionFile.{list_answer};
ghost use Rattle.calls.specs.Making.{make_answer, make_buffer, list_in};
ghost use Rattle.calls.specs.Meaning.{RegionListOf};
ghost use Rattle.making_turns.specs.Work.{blank, Ended};

use making_turns::turning::{begin, turn};
use regions::region::Region;
use tables::answer::Answer;

// A record of zeros.
fn zeros() -> Region
    ensures { result ≡ blank }
{
    Region {
        location: 0,
        intervals: [0; 4],
        ranks: [0; 4],
    }
}

// Clears the waiting list.
pub fn wipe(rows: &mut [Region], zero: Region)
    ensures { rows.new ≡ replicate (length rows.old) zero }
{
    rows.fill(zero);
}

// Makes the list turn by turn, up to the answer. The records are left as the turns left them.
fn make_rows(table: &[u8], buffer: &mut [u8], waiting: &mut [Region]) -> Answer
    ensures { Ended table.now buffer.old (length waiting.old) buffer.new result }
{
    let mut s = begin(table, buffer, waiting.len())?;
    loop {
        if let Some(answer) = s.ended {
            return answer;
        }
        waiting[s.place] = s.row;
        s = turn(table, buffer, waiting[s.take], s);
    }
}

// Makes the list. Accepted: what the buffer begins with is the file of a closed list of so many rows, which the check of region lists accepts, and no run
// ends in a final location. Refused by 21: some run does. Refused by 20: neither is said.
pub fn make_list(table: &[u8], buffer: &mut [u8], waiting: &mut [Region]) -> Answer
    ensures answer { answer_of result ≡ make_answer table.now (length buffer.old) (length waiting.old) }
    ensures buffer { buffer.new ≡ make_buffer table.now (length waiting.old) buffer.old }
    ensures waiting { waiting.new ≡ replicate (length waiting.old) blank }
    ensures list { (k : ℕ) → answer_of result ≡ accepted k → Passes table.now × RegionListOf (table_of table.now) (list_in (table_of table.now) k buffer.new) k × (list_answer table.now (list_in (table_of table.now) k buffer.new) ≡ accepted k) }
    ensures empty { (k : ℕ) → answer_of result ≡ accepted k → Reached (table_of table.now) → ⊥ }
    ensures reached { (place : ℕ) → answer_of result ≡ refused 21 place → Reached (table_of table.now) }
{
    let answer = make_rows(table, buffer, waiting);
    wipe(waiting, zeros());
    answer
}

// Makes the list with a waiting list of its own. No reference to a record stands in its signature.
pub fn make_here(table: &[u8], buffer: &mut [u8]) -> Answer
    ensures answer { answer_of result ≡ make_answer table.now (length buffer.old) 4096 }
    ensures buffer { buffer.new ≡ make_buffer table.now 4096 buffer.old }
{
    let mut rows = [zeros(); 4096];
    make_list(table, buffer, &mut rows)
}
