// The region rules, by value: comparisons, guards, updates, edges, regions and what comes after them. Nothing here knows of files.
#![tactic(auto)]

pub mod comparison; // the table of comparisons
pub mod clocks; // the clocks and their bounds
pub mod region; // a region
pub mod room; // how many ranks there can be
pub mod edge; // guards, updates, edges
pub mod guard; // guards in a region
pub mod order; // the order of regions
pub mod wait; // the time successor
pub mod clock_move; // one clock's move
pub mod placing; // the places of the new parts among the old ones
pub mod image; // the one next region of a deterministic edge
