// The regions that have the same location and intervals: one for each ranking of the clocks whose intervals are open. Nothing here knows of files.
#![tactic(auto)]

pub mod table; // all rankings, as one table
pub mod ranking; // a table of all rankings, read by number
