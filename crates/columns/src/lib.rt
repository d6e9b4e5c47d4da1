// What two tables have in a column: positions and networks, the plan by which rows hold, and footprints.

#![tactic(auto)]

pub mod contents;
pub mod ends;
mod last_positions;
pub mod limits;
pub mod plan;
pub mod prints;
pub mod runs;
pub mod tables;
mod words;
