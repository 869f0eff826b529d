// Making a region list from a table.
#![tactic(auto)]

pub mod make; // the loop over the waiting rows
