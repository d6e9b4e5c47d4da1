// Matching: the symbols of a value, one value against one string, the state of a column and its step, and networks.

#![tactic(auto)]

pub mod codes;
pub mod network;
pub mod reading;
pub mod state;
pub mod symbols;
pub mod value;
pub mod words;
