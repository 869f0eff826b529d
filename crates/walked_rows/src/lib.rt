// Rows of a region list from which an edge leads out of it, found by walks from few rows.
#![tactic(auto)]

pub mod walking; // of some rows the least from which an edge does that may lead to many regions
pub mod turning; // one of all rows of a location
pub mod sides; // one, by an edge that is taken by its sides
pub mod guarded; // the first row that an edge can be taken from
pub mod fresh; // one, where it is known of old rows that they are none
