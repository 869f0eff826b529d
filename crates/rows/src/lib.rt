// Row records, read and written.
#![tactic(auto)]

pub mod row; // row records, by value
pub mod row_writer; // a region's row record, written
