// The members of a policy in the public JSON form: which names stand where, how often, and with what type of value (21, 22).

#![tactic(auto)]

pub mod checking;
mod condition;
mod document;
mod folding;
mod levels;
pub mod marks;
pub mod names;
mod principal;
pub mod state;
mod statement;
