// A look for a new row of a list in the making: by plain steps from one row, and by the others from few rows that tell for all.
#![tactic(auto)]

pub mod stride; // what a look for a new row has come to
pub mod asking; // one plain edge from one row
pub mod following; // the plain steps from one row
pub mod walking; // the other steps, from few rows that tell for all
