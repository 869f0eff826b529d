// How many regions an edge leads to, counted and not walked. Nothing here knows of files.
#![tactic(auto)]

pub mod kinds; // the kinds of a clock's intervals, and how many there are of each
pub mod patterns; // patterns of kinds, and how many regions there are of each
pub mod way_count; // how many regions are on an edge's way
