// The states of the strings of a column: which positions take which byte, and all states that strings lead to.

#![tactic(auto)]

mod bytes;
pub mod explore;
pub mod limits;
mod named;
pub mod rows;
pub mod strings;
pub mod taken;
