// The walk over the regions that an edge leads to. Nothing here knows of files.
#![tactic(auto)]

pub mod search; // what a walk goes by
pub mod choice; // the choices for one number of a region
pub mod stand; // where a walk stands, and its steps
pub mod interval_walk; // the steps of a walk that chooses intervals alone
pub mod walk; // the walk from one of an edge's next regions to the one after it
pub mod way; // what a walk goes by: an edge's way from a region
pub mod allowing; // whether the moves allow a region
