// Which of many rows an edge has to be walked from. Nothing here knows of files.
#![tactic(auto)]

pub mod reach; // how far an edge leads from a row, as numbers
pub mod skyline; // rows from none of which an edge leads no further than from another
pub mod sides; // an edge that asks for any value but one, by its sides
pub mod alike; // edges that read no clock
