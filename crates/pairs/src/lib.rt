// Pairs of tables compared, as the lines of a text ask for it: what the programs that run comparisons share.

#![tactic(auto)]

pub mod line;
pub mod print;
pub mod question;
