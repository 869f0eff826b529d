// Records, and those of a table file: header, locations, edges by value.
#![tactic(auto)]

pub mod record; // the record reader, numbers in bytes
pub mod refusal; // why a file is refused, and where
pub mod head; // what a table is read by
pub mod header; // the header
pub mod location; // location records
pub mod edge; // edge records
pub mod decode; // edges by value
