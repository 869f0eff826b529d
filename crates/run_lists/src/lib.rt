// The check of a run list.
#![tactic(auto)]

pub mod step; // one step of a run: guards, updates, the state after it
pub mod run; // the run list
