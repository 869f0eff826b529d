// The run list checked against a table, in one pass: each step is taken as it is read, and its refusal waits until all is read.
ghost use Rattle.std.specs.Prelude.{◌≡◌, [], ◌↔◌, ℕ, ◌<◌, ◌≤◌, drop, IfOk};
ghost use Rattle.automata.specs.Run.{first, Reached};
ghost use Rattle.table_files.specs.Answer.{accepted};
ghost use Rattle.table_files.specs.Reading.{good};
ghost use Rattle.table_files.specs.Admission.{table_of};
ghost use Rattle.table_files.specs.Meaning.{Passes};
ghost use Rattle.tables.specs.Values.{answer_of};
ghost use Rattle.calls.specs.RunFile.{run_answer};
ghost use Rattle.calls.specs.Meaning.{RunListOf};
ghost use Rattle.run_lists.specs.Step.{state_of};
ghost use Rattle.run_lists.specs.Run.{concluded, steps_from, run_from, counted};

use crate::step::{State, take_step};
use table_records::record::{record, two_bytes};
use table_records::refusal::{Fault, Refusal};
use tables::admission::open;
use tables::answer::Answer;
use tables::table::Table;

// Once all is read: the refusal that stands, or 13, or the count of steps.
#[tactic(auto, unfolding(crate::specs::Run::concluded, table_files::specs::Reading::carry, table_files::specs::Reading::require))]
fn conclude(table: &Table, reached: Result<State, Refusal>, steps: u16) -> Answer
    requires location_lt_locations { IfOk reached (λ s. s.location < table.now.head.locations) }
    ensures { answer_of result ≡ counted (concluded (table_of table.now.file.now) steps (state_of table.now.head.clocks.count reached)) }
{
    let state = reached?;
    if !table.is_final(state.location) {
        return Err(Fault::EndNotFinal.at(steps));
    }
    Ok(steps)
}

// The steps after the header: refusals 7 and 8 as they are met, then 9, then what the steps come to. Where the edges' records begin is found
// before, so that a step takes as long by the last edge as by the first.
fn check_steps(table: &Table, list: &[u8], scale: u16, steps: u16) -> Answer
    requires steps_bound { steps ≤ 2048 }
    ensures { answer_of result ≡ counted (steps_from (table_of table.now.file.now) scale steps 1 steps (good (first (table_of table.now.file.now)) []) (drop 6 list.now)) }
{
    let head = table.head;
    let starts = table.edge_starts();
    let size = 8 + 4 * (head.clocks.count as usize);
    let mut reached = Ok(State {
        location: head.initial,
        values: [0; 4],
    });
    let mut at = 6;
    for i in 0..steps {
        let step = record(list, at, size, *b"ST");
        if step.is_empty() {
            return Err(Fault::ListCut.at(i + 1));
        }
        let number = two_bytes(step, 2);
        if head.edges <= number {
            return Err(Fault::ListRange.at(i + 1));
        }
        let start = starts[number as usize] as usize;
        reached = take_step(table, start, scale, reached, i + 1, step);
        at += size;
    }
    if at < list.len() {
        return Err(Fault::ListLong.at(1 + steps));
    }
    conclude(table, reached, steps)
}

// A run list against an admitted table: refusals 7 to 13, or the count of steps.
fn check_list(table: &Table, list: &[u8]) -> Answer
    ensures { answer_of result ≡ counted (run_from (table_of table.now.file.now) list.now) }
{
    let header = record(list, 0, 6, *b"RN");
    if header.is_empty() {
        return Err(Fault::ListCut.at(0));
    }
    let scale = two_bytes(header, 2);
    let steps = two_bytes(header, 4);
    if scale < 1 || 10000 < scale || 2048 < steps {
        return Err(Fault::ListRange.at(0));
    }
    check_steps(table, list, scale, steps)
}

// Checks a run list against a table: refusals 1 to 13, or the count of steps.
pub fn check_run(table: &[u8], list: &[u8]) -> Answer
    ensures answer { answer_of result ≡ run_answer table.now list.now }
    ensures run { (k : ℕ) → (answer_of result ≡ accepted k) ↔ (Passes table.now × RunListOf (table_of table.now) list.now k) }
    ensures reached { (k : ℕ) → answer_of result ≡ accepted k → Reached (table_of table.now) }
{
    let opened = open(table)?;
    check_list(&opened, list)
}
