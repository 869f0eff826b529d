// The first row of a region list that is open: that lacks a next row.
#![tactic(auto)]

pub mod waiting; // the first that lacks the row after it in time
pub mod imaging; // the first that lacks what a deterministic edge leads to
pub mod tracing; // from a row that lacks what an edge leads to to the first that lacks the same
pub mod turning; // the first that lacks what an edge leads to which may lead to many regions
pub mod alike; // the first, by an edge that reads no clock
pub mod leading; // the first by any edge
pub mod open; // the first
