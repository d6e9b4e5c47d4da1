// Judging: what a row of a table says of a value in a column, the rows that hold for a request, and the judge.

#![tactic(auto)]

pub mod applying;
mod asked;
mod gathering;
pub mod judge;
pub mod request;
pub mod rows;
pub mod walk;
