// Which rankings an edge's moves allow. Nothing here knows of files.
#![tactic(auto)]

pub mod ranked_way; // the rankings of the same intervals, and what is remembered of them
