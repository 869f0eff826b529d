// Which rows of a region list an edge is walked from.
#![tactic(auto)]

pub mod choosing; // those that it leads furthest from, as many as there is room for
pub mod grouping; // one of each group that asks for the same values
