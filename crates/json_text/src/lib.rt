// JSON texts: which byte strings are one, the first byte that fails, and the tokens and strings of those that are.

#![tactic(auto)]

mod bytes;
pub mod events;
pub mod machine;
pub mod numbers;
pub mod pieces;
pub mod reader;
mod runs;
pub mod strings;
pub mod tokens;
pub mod words;
