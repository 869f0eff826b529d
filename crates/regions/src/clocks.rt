// The clocks of a table, and their bounds.
ghost use Rattle.std.specs.Prelude.{ℕ, ◌≤◌};
ghost use Rattle.automata.specs.Clocks.{at};

// The clocks and their bounds: one for each of the first `count`. They are at most four, with bounds whose intervals are numbers of two bytes: the rules do
// not ask for the file's limit of 127.
#[derive(Clone, Copy)]
pub struct Clocks {
    pub count: u8,
    pub bounds: [u16; 4],
    ghost few: { count ≤ 4 },
    ghost low: { (z : ℕ) → at bounds z ≤ 16383 },
}
