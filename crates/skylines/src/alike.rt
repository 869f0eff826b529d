// Edges that read no clock: they lead to the same regions from all rows that they can be taken from.
// Bounds of a number stay clauses here: the check finds them at each call, and a type around the number would be opened at each use.
ghost use Rattle.std.specs.Prelude.{◌≡◌, true, ◌≤◌};
ghost use Rattle.regions.specs.Values.{action_of, edge_of};
ghost use Rattle.skylines.specs.Alike.{constantb, ReadsNone};

use regions::edge::{Action, Edge};

// Whether a new value is compared with a constant.
fn is_constant(a: Action) -> bool
    ensures { result ≡ constantb (action_of a) }
{
    matches!(a, Action::Constant(_))
}

// Whether an edge reads no clock.
pub fn reads_none(n: usize, e: Edge) -> bool
    requires { n ≤ 4 }
    ensures { result ≡ true → ReadsNone n (edge_of n e) }
{
    e.updates[..n].iter().all(|u| is_constant(u.action))
}
