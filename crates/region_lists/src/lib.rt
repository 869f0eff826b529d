// The check of a region list.
#![tactic(auto)]

pub mod list_records; // reading a region list
pub mod list_order; // its order and its locations
pub mod region_list; // the check of a region list
