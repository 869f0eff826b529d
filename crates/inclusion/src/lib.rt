// Whether a region list has all regions that an edge leads to from one of its rows.
#![tactic(auto)]

pub mod counted; // whether it has as many of them as there are
pub mod inside; // whether it has them
pub mod gaps; // where it lacks one, for who looks for it
