// The turns of the making of a list.
#![tactic(auto)]

pub mod work; // what stands between two turns
pub mod turning; // how work begins, goes on and ends
