// Text in ASCII, written to the front of lent bytes.
#![tactic(auto)]

pub mod decimal; // numbers in decimal
pub mod word; // words
pub mod line; // a word and a count; a refusal
