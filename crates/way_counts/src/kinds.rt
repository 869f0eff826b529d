// The kinds of a clock's intervals: which rankings a move allows turns on the kinds of the intervals alone. Intervals are counted by the stretches of them
// of which the same is known, at most four, however many intervals there are.
// Bounds of a number stay clauses here: the check finds them at each call, and a type around the number would be opened at each use.
ghost use Rattle.std.specs.Prelude.{◌≡◌, cond, ℕ, ◌+◌, ◌-◌, ◌/◌, ◌≤◌, ◌<◌, eqb};
ghost use Rattle.way_counts.specs.Kinds.{kind, number, number_found, of_kind};

use regions::clock_move::Move;

// The kind of an interval that is allowed: its rank is 0, or it is open and the order is that of the fractional parts, or it is open and allowed whatever
// its rank.
#[derive(Clone, Copy, PartialEq, Eq)]
pub enum Kind {
    Shut,
    Parted,
    Loose,
}

// The kind of a new interval, or none where it is not allowed at all.
#[tactic(auto, using(crate::proofs::Laws::Kinds::kind_above, crate::proofs::Laws::Kinds::kind_none, crate::proofs::Laws::Kinds::kind_shut, crate::proofs::Laws::Kinds::kind_parts, crate::proofs::Laws::Kinds::kind_loose))]
fn kind_of(asked: Move, interval: u16) -> Option<Kind>
    ensures { number_found result ≡ kind asked interval }
{
    if asked.top < interval || !asked.permits(interval) {
        None
    } else if interval == asked.top || interval % 2 == 0 {
        Some(Kind::Shut)
    } else if asked.is_by_parts(interval) {
        Some(Kind::Parted)
    } else {
        Some(Kind::Loose)
    }
}

// Whether an interval is of the kind.
fn is_of(asked: Move, interval: u16, wanted: Kind) -> bool
    ensures { result ≡ eqb (kind asked interval) (number wanted) }
{
    kind_of(asked, interval) == Some(wanted)
}

// How many intervals of a stretch are of the kind: every second one is like the first, and the others are like the second.
fn in_stretch(asked: Move, wanted: Kind, from: u16, end: u16) -> u16
    requires { (from < end) × (end ≤ 32768) }
    ensures { result ≡ cond (eqb (kind asked from) (number wanted)) ((end - from + 1) / 2) 0 + cond (eqb (kind asked (from + 1)) (number wanted)) ((end - from) / 2) 0 }
{
    let many = end - from;
    let first = if is_of(asked, from, wanted) {
        (many + 1) / 2
    } else {
        0
    };
    let second = if is_of(asked, from + 1, wanted) {
        many / 2
    } else {
        0
    };
    first + second
}

// How many intervals are of the kind.
#[tactic(auto, using(crate::proofs::Laws::Kinds::stretch_more, crate::proofs::Laws::Kinds::of_kind_le))]
pub fn count_of_kind(asked: Move, wanted: Kind) -> u16
    requires { asked.top ≤ 32767 }
    ensures { result ≡ of_kind asked (number wanted) (asked.top + 1) }
{
    let mut total = 0;
    let mut interval = 0;
    while interval <= asked.top {
        let end = asked.next_stretch(interval);
        total += in_stretch(asked, wanted, interval, end);
        interval = end;
    }
    total
}

// An interval of the kind, where there is one.
#[tactic(auto, using(crate::proofs::Laws::Kinds::stretch_none, crate::proofs::Laws::Kinds::number_permits))]
pub fn one_of_kind(asked: Move, wanted: Kind) -> u16
    requires { asked.top ≤ 32767 }
    ensures within { result ≤ asked.top }
    ensures alike { (j : ℕ) → j ≤ asked.top → kind asked j ≡ number wanted → kind asked result ≡ number wanted }
{
    let mut interval = 0;
    while interval <= asked.top {
        if is_of(asked, interval, wanted) {
            return interval;
        }
        if is_of(asked, interval + 1, wanted) {
            return interval + 1;
        }
        interval = asked.next_stretch(interval);
    }
    0
}
