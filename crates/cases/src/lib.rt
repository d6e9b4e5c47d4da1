// What the programs that run cases share: the lines and words of a text, the bytes that words stand for, whether lent memory was
// left alone, and how a refusal is printed.

#![tactic(auto)]

pub mod laying;
pub mod print;
pub mod same;
pub mod text;
