// The rows of a region list that was read: each is read again from its bytes, as often as it is wanted, and looked up by halves.
#![tactic(auto)]

pub mod listed; // one row
pub mod region_list; // a list whose records were read
pub mod look_up; // where a region stands in it
pub mod located; // where the rows of a location stand
pub mod edge_in_list; // an edge by which its rows are left
pub mod ranked; // whether it has all regions that differ in their ranks alone
