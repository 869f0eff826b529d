// The six comparisons: one table, which guards, run values, region moves and the order of rows all ask.
// Comparisons stay numbers: a byte of a file is known to name one only where admission's test of it is, so an enum would need a made-up case, or a fact
// for each guard and update.
ghost use Rattle.std.specs.Prelude.{◌≡◌, cond, ltb};
ghost use Rattle.automata.specs.Comparison.{comparisons, below, above, place, answer, holds, at_alone};
ghost use Prim.Native.Nat.{Ordering as ordering};
ghost use Prim.Native.Nat.{compare};

use std::cmp::Ordering;

// Rows: 0 <, 1 ≤, 2 =, 3 ≥, 4 >, 5 ≠. Columns: the answer for below, at and above.
const COMPARISONS: usize = 6;

const ANSWERS: [[bool; 3]; COMPARISONS] = [
    [true, false, false],
    [true, true, false],
    [false, true, false],
    [false, true, true],
    [false, false, true],
    [true, false, true],
];

// The comparison to keep by: =.
pub const EQUAL: u8 = 2;

// Those that allow one side alone, what is below and what is above: < and >.
pub const BELOW: u8 = 0;

pub const ABOVE: u8 = 4;

// The comparison that allows one side alone.
// `up` is a bit of a choice, as the definition has it: it chooses a value, not a step.
pub fn one_side(up: bool) -> u8
    ensures { result ≡ cond up above below }
{
    if up { ABOVE } else { BELOW }
}

// Whether a number names a comparison.
pub fn is_comparison(number: u8) -> bool
    ensures { result ≡ ltb number comparisons }
{
    (number as usize) < COMPARISONS
}

// The column of two numbers.
fn side(x: u64, y: u64) -> usize
    ensures { result ≡ place (compare x y) }
{
    match x.cmp(&y) {
        Ordering::Less => 0,
        Ordering::Equal => 1,
        Ordering::Greater => 2,
    }
}

// Whether x stands in the comparison to y. A number that names no comparison answers no.
pub fn holds(comparison: u8, x: u64, y: u64) -> bool
    ensures { result ≡ holds comparison x y }
{
    let row = comparison as usize;
    row < COMPARISONS && ANSWERS[row][side(x, y)]
}

// What a comparison answers for below, at and above.
#[derive(Clone, Copy)]
pub struct Answers {
    pub below: bool,
    pub at: bool,
    pub above: bool,
}

// The row of a comparison: three answers by one look at the table. A number that names no comparison answers no.
pub fn answers_of(comparison: u8) -> Answers
    ensures below { result.below ≡ answer comparison ordering.lt }
    ensures at { result.at ≡ answer comparison ordering.eq }
    ensures above { result.above ≡ answer comparison ordering.gt }
{
    let row = comparison as usize;
    if COMPARISONS <= row {
        return Answers {
            below: false,
            at: false,
            above: false,
        };
    }
    let answers = ANSWERS[row];
    Answers {
        below: answers[0],
        at: answers[1],
        above: answers[2],
    }
}

// Whether the comparison allows what is at and nothing else, and so asks for one value.
pub fn is_at_alone(comparison: u8) -> bool
    ensures { result ≡ at_alone comparison }
{
    let answers = answers_of(comparison);
    answers.at && !answers.below && !answers.above
}
