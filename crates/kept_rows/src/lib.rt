// The rows of a list in the making. They stand ascending in the lent buffer itself, and while the list is made the two bytes of each row's mark hold its birth.
#![tactic(auto)]

pub mod births; // in which order the rows were found
pub mod inserting; // a new row, put into its place
pub mod finishing; // the finished list, or nothing
