// A policy in the public JSON form, read into a stored table.

#![tactic(auto)]

pub mod items;
pub mod networks;
pub mod reader;
pub mod trying;
pub mod values;
pub mod writing;
