// The calls of a host program in C, as the one archive has them.
#![tactic(auto)]

pub mod c; // admission, both checks, and the making of a list
