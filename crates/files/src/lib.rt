// Files by name, for the programs: the first bytes of one, and a new one. No contract can say what the system reads or writes.
#![tactic(auto)]

pub mod reading; // the first bytes of a file
pub mod writing; // a new file
