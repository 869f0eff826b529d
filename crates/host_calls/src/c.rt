// The calls of a host program in C, each with one number for an answer: the refusal's number times 65,536 plus its place, or the count. Every
// count is below 65,536 and every refusal's number is above 0, so a number below 65,536 says that the file is accepted.
ghost use Rattle.std.specs.Prelude.{◌≡◌, ◌↔◌, List, ℕ, ◌≤◌, ◌<◌, length, replicate};
ghost use Rattle.automata.specs.Row.{Row};
ghost use Rattle.automata.specs.Automaton.{Admitted};
ghost use Rattle.automata.specs.Run.{Reached};
ghost use Rattle.automata.specs.Closed.{Closed, ExactlyOne};
ghost use Rattle.table_files.specs.Answer.{accepted, refused, packed};
ghost use Rattle.table_files.specs.Admission.{admission, table_of};
ghost use Rattle.table_files.specs.Meaning.{Passes};
ghost use Rattle.calls.specs.RunFile.{run_answer};
ghost use Rattle.calls.specs.RegionFile.{list_answer, list_bytes};
ghost use Rattle.calls.specs.Making.{make_answer, make_buffer, list_in};
ghost use Rattle.calls.specs.Meaning.{RunListOf, RegionListOf};
ghost use Rattle.making_turns.specs.Work.{blank};

use making::make::make_list;
use region_lists::region_list::check_regions;
use regions::region::Region;
use run_lists::run::check_run;
use tables::admission::admission;
use tables::answer::packed;

// Admits a table. On an admitted table exactly one holds: some run ends in a final location, or some closed list exists.
#[unsafe(no_mangle)]
pub extern "C" fn tzelmaruf_admit(table: &[u8]) -> u32
    ensures answer { result ≡ packed (admission table.now) }
    ensures one { result < 65536 → Admitted (table_of table.now) × ExactlyOne (Reached (table_of table.now)) ((rows : List Row) × Closed (table_of table.now) rows) }
{
    packed(admission(table))
}

// Checks a run list against a table. A number below 65,536 is the count of steps of a run that ends in a final location.
#[unsafe(no_mangle)]
pub extern "C" fn tzelmaruf_check_run(table: &[u8], list: &[u8]) -> u32
    ensures answer { result ≡ packed (run_answer table.now list.now) }
    ensures run { (k : ℕ) → k < 65536 → (result ≡ k) ↔ (Passes table.now × RunListOf (table_of table.now) list.now k) }
    ensures reached { result < 65536 → Reached (table_of table.now) }
{
    packed(check_run(table, list))
}

// Checks a region list against a table. A number below 65,536 is the count of rows of a closed list, and then no run ends in a final location.
#[unsafe(no_mangle)]
pub extern "C" fn tzelmaruf_check_regions(table: &[u8], list: &[u8]) -> u32
    ensures answer { result ≡ packed (list_answer table.now list.now) }
    ensures closed { (k : ℕ) → k < 65536 → (result ≡ k) ↔ (Passes table.now × RegionListOf (table_of table.now) list.now k) }
    ensures empty { result < 65536 → Reached (table_of table.now) → ⊥ }
    ensures complete { Passes table.now → (rows : List Row) → Closed (table_of table.now) rows → length rows ≤ 4096 → list.now ≡ list_bytes rows → result ≡ length rows }
{
    packed(check_regions(table, list))
}

// Makes the region list of a table in the buffer. A number below 65,536 is the count of rows of a closed list, whose file the buffer begins with and the
// check accepts, and then no run ends in a final location; refused by 21, some run does. The waiting list's records are zeros afterwards.
#[unsafe(no_mangle)]
pub extern "C" fn tzelmaruf_make_list(
    table: &[u8],
    buffer: &mut [u8],
    waiting: &mut [Region],
) -> u32
    ensures answer { result ≡ packed (make_answer table.now (length buffer.old) (length waiting.old)) }
    ensures buffer { buffer.new ≡ make_buffer table.now (length waiting.old) buffer.old }
    ensures waiting { waiting.new ≡ replicate (length waiting.old) blank }
    ensures list { result < 65536 → Passes table.now × RegionListOf (table_of table.now) (list_in (table_of table.now) result buffer.new) result × (list_answer table.now (list_in (table_of table.now) result buffer.new) ≡ accepted result) }
    ensures empty { result < 65536 → Reached (table_of table.now) → ⊥ }
    ensures reached { result ≡ packed (refused 21 0) → Reached (table_of table.now) }
{
    packed(make_list(table, buffer, waiting))
}
