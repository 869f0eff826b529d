// A next region of a region that a list has not yet: for who makes a list.
#![tactic(auto)]

pub mod sole; // where there is one next region at most
pub mod waiting; // by waiting
pub mod imaging; // by a deterministic edge
pub mod walking; // by an edge that may lead to many regions
pub mod asking; // whether an edge leads anywhere at all
