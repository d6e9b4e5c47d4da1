// Comparing two tables: which kinds of request the first allows and the second does not.

#![tactic(auto)]

pub mod answers;
pub mod compare;
pub mod kinds;
pub mod limits;
pub mod show;
pub mod sides;
pub mod survey;
