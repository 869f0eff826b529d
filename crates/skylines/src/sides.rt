// An edge that asks for any value but one, as edges that ask for less or for more. Such an edge leads where these lead, one for each way to choose, and
// what each of them allows has no gap.
// Bounds of a number stay clauses here: the check finds them at each call, and a type around the number would be opened at each use.
// A comparison stays a number (`comparison.rt` of `regions` says why).
ghost use Rattle.std.specs.Prelude.{◌≡◌, ◌≤◌, ◌<◌};
ghost use Rattle.automata.specs.Comparison.{sides_alone};
ghost use Rattle.regions.specs.Values.{update_of, edge_of};
ghost use Rattle.skylines.specs.Sides.{bit, two_sided, sided_update, sided, may_choose, is_choice};

use regions::comparison;
use regions::edge::{Action, Edge, Update};

// Whether a comparison allows what is below and what is above, and not what is at.
#[tactic(auto, unfolding(automata::specs::Comparison::sides_alone))]
fn has_two_sides(comparison: u8) -> bool
    ensures { result ≡ sides_alone comparison }
{
    let answers = comparison::answers_of(comparison);
    answers.below && answers.above && !answers.at
}

// Whether an update asks for any value but that of a clock plus an offset.
fn is_two_sided(u: Update) -> bool
    ensures { result ≡ two_sided (update_of u) }
{
    matches!(u.action, Action::Clock(..)) && has_two_sides(u.comparison)
}

// Such an update by the side above, if that is chosen, else by the one below; any other as it is.
#[tactic(auto, unfolding(crate::specs::Sides::sided_update))]
// `up` is a bit of the choice, as the definition has it: it chooses a value, not a step.
fn sided_update(u: Update, up: bool) -> Update
    ensures { update_of result ≡ sided_update (update_of u) up }
{
    if is_two_sided(u) {
        Update {
            comparison: comparison::one_side(up),
            ..u
        }
    } else {
        u
    }
}

// Whether k chooses the side above for clock z.
#[tactic(auto, using(crate::proofs::Laws::Sides::halved_is))]
fn is_above(k: u8, z: usize) -> bool
    requires { z < 8 }
    ensures { result ≡ bit k z }
{
    (k >> z) % 2 == 1
}

// Whether the side that k chooses for clock z may be chosen: the one above is a choice only where there are two.
fn may_choose(n: usize, e: Edge, k: u8, z: usize) -> bool
    requires few { n ≤ 4 }
    requires z_lt_count { z < n }
    ensures { result ≡ may_choose (edge_of n e) k z }
{
    !is_above(k, z) || is_two_sided(e.updates[z])
}

// Whether k chooses among the sides of an edge, one bit a clock, the lowest for the first: a bit that is set says above. All edges by the sides that the
// numbers below 16 choose lead where the edge leads.
pub fn is_choice(n: usize, e: Edge, k: u8) -> bool
    requires { n ≤ 4 }
    ensures { result ≡ is_choice n (edge_of n e) k }
{
    (0..n).all(|z| may_choose(n, e, k, z)) && k >> n == 0
}

// The edge by the sides that k chooses.
pub fn with_sides(n: usize, e: Edge, k: u8) -> Edge
    requires { n ≤ 4 }
    ensures means { edge_of n result ≡ sided n (edge_of n e) k }
    ensures few { result.guard_count ≡ e.guard_count }
{
    let mut updates = e.updates;
    for z in 0..n {
        updates[z] = sided_update(e.updates[z], is_above(k, z));
    }
    Edge {
        source: e.source,
        target: e.target,
        guard_count: e.guard_count,
        guards: e.guards,
        updates,
    }
}
