// One step of a run: the wait, the guards, and what the updates allow. All clock values are whole counts of 1/scale.
// Bounds of a number stay clauses here: the check finds them at each call, and a type around the number would be opened at each use.
// What joins two parameters stays a clause here: a type of both would be made anew for each call, and taken apart in it.
ghost use Rattle.std.specs.Prelude.{◌≡◌, ◌+◌, ◌*◌, ◌<◌, ◌≤◌, [], length, take, IfOk};
ghost use Rattle.automata.specs.Clocks.{at, each};
ghost use Rattle.automata.specs.Comparison.{holds};
ghost use Rattle.automata.specs.Point.{later};
ghost use Rattle.automata.specs.Edge.{ActionIn};
ghost use Rattle.regions.specs.Values.{edge_of, action_of};
ghost use Rattle.calls.specs.RunFile.{guardedb, allowed_byb, allowedb};
ghost use Rattle.table_files.specs.Bytes.{two};
ghost use Rattle.table_files.specs.Admission.{table_of};
ghost use Rattle.tables.specs.Bounds.{edge_start};
ghost use Rattle.run_lists.specs.Step.{Names, value_in, move_of, point_of, state_of, step_by, one_more};

use regions::comparison;
use regions::edge::{Action, Edge, Guard, Update};
use table_records::decode::edge_from;
use table_records::record::four_bytes;
use table_records::refusal::{Fault, Refusal};
use tables::table::Table;

// Where the steps so far have led: the location and the clocks' values after the last one.
#[derive(Clone, Copy)]
pub struct State {
    pub location: u8,
    pub values: [u32; 4],
}

// A table's constant in counts of 1/scale. Counts are eight bytes wide here, so that no sum of this file wraps.
fn counts(constant: u16, scale: u16) -> u64
    ensures value { result ≡ constant * scale }
    ensures small { result < 4294967296 }
{
    (constant as u64) * (scale as u64)
}

// The value of clock z after the delay.
fn waited(values: [u32; 4], z: usize, delay: u32) -> u64
    requires { z < 4 }
    ensures value { result ≡ at values z + delay }
    ensures small { result < 8589934592 }
{
    (values[z] as u64) + (delay as u64)
}

// Whether a guard holds after the delay.
fn guard_holds(guard: Guard, values: [u32; 4], delay: u32, scale: u16) -> bool
    requires { guard.clock < 4 }
    ensures { result ≡ holds guard.comparison (at values guard.clock + delay) (guard.constant * scale) }
{
    let value = waited(values, guard.clock as usize, delay);
    comparison::holds(guard.comparison, value, counts(guard.constant, scale))
}

// Whether all guards of an edge hold after the delay.
fn guards_hold(n: u8, e: Edge, values: [u32; 4], delay: u32, scale: u16) -> bool
    requires n_bound { n ≤ 4 }
    requires names { Names n e }
    ensures { result ≡ guardedb scale (later delay (take n values)) (edge_of n e).guards }
{
    (0..e.guard_count).all(|i| guard_holds(e.guards[i as usize], values, delay, scale))
}

// Whether an update allows clock z the new value. The values are those before any update: what an update reads is never another's result. What
// an offset takes away stands on the new value's side, so that a reference below 0 stays below 0.
fn allows(u: Update, z: usize, values: [u32; 4], delay: u32, value: u32, scale: u16) -> bool
    requires z_bound { z < 4 }
    requires action_in { ActionIn 4 (action_of u.action) }
    ensures { result ≡ allowed_byb scale (later delay values) z value u.comparison (action_of u.action) }
{
    let new = value as u64;
    match u.action {
        Action::Keep => new == waited(values, z, delay),
        Action::Constant(k) => comparison::holds(u.comparison, new, counts(k, scale)),
        Action::Clock(y, up, down) => comparison::holds(
            u.comparison,
            new + counts(down, scale),
            waited(values, y as usize, delay) + counts(up, scale),
        ),
    }
}

// Whether the updates of an edge allow all new values.
fn updates_allow(n: u8, e: Edge, values: [u32; 4], delay: u32, news: [u32; 4], scale: u16) -> bool
    requires n_bound { n ≤ 4 }
    requires names { Names n e }
    ensures { result ≡ allowedb scale (later delay (take n values)) (take n news) (edge_of n e).updates }
{
    (0..n as usize).all(|z| allows(e.updates[z], z, values, delay, news[z], scale))
}

// The values after the update that a step's record tells, one a clock.
fn new_values(n: u8, step: &[u8]) -> [u32; 4]
    requires n_bound { n ≤ 4 }
    requires step_len { length step.now ≡ 8 + 4 * n }
    ensures { take n result ≡ each n (value_in step.now) }
{
    let mut values: [u32; 4] = [0; 4];
    for z in 0..n as usize {
        values[z] = four_bytes(step, 8 + 4 * z);
    }
    values
}

// The state after a step by this edge; or the first of refusals 10, 11 and 12 that applies to the step.
fn step_by(
    n: u8,
    e: Edge,
    scale: u16,
    state: State,
    place: u16,
    step: &[u8],
) -> Result<State, Refusal>
    requires n_bound { n ≤ 4 }
    requires names { Names n e }
    requires step_len { length step.now ≡ 8 + 4 * n }
    ensures means { state_of n result ≡ step_by (edge_of n e) scale place (point_of n state) (move_of n step.now) [] }
    ensures inside { IfOk result (λ s. s.location ≡ e.target) }
{
    let delay = four_bytes(step, 4);
    let values = new_values(n, step);
    if state.location != e.source {
        return Err(Fault::EdgeFromElsewhere.at(place));
    }
    if !guards_hold(n, e, state.values, delay, scale) {
        return Err(Fault::GuardFails.at(place));
    }
    if !updates_allow(n, e, state.values, delay, values, scale) {
        return Err(Fault::ValueNotAllowed.at(place));
    }
    Ok(State {
        location: e.target,
        values,
    })
}

// What the steps have led to after one more, which the bytes of its record tell; start is where its edge's record begins. An earlier refusal
// stands.
pub fn take_step(
    table: &Table,
    start: usize,
    scale: u16,
    before: Result<State, Refusal>,
    place: u16,
    step: &[u8],
) -> Result<State, Refusal>
    requires step_len { length step.now ≡ 8 + 4 * table.now.head.clocks.count }
    requires step_bound { two step.now 2 < table.now.head.edges }
    requires start_value { start ≡ edge_start table.now.head.clocks.count table.now.head.locations table.now.file.now (two step.now 2) }
    requires location_lt_locations { IfOk before (λ s. s.location < table.now.head.locations) }
    ensures means { state_of table.now.head.clocks.count result ≡ one_more (table_of table.now.file.now) scale place (state_of table.now.head.clocks.count before) (move_of table.now.head.clocks.count step.now) }
    ensures inside { IfOk result (λ s. s.location < table.now.head.locations) }
{
    let state = before?;
    let n = table.head.clocks.count;
    let e = edge_from(table.file, start, n);
    step_by(n, e, scale, state, place, step)
}
