// The admission of a table file, and what an admitted file says.
#![tactic(auto)]

pub mod answer; // what a call answers
pub mod bounds; // the bound rules
pub mod table; // an admitted table
pub mod admission; // the admission
pub mod reading; // what an admitted table says
