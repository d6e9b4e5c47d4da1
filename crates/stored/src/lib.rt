// The stored form of an access table: its items, its records, the one state machine that says which record may come next,
// the reader, the writer, and the records one after the other (entries) for those who walk a table.

#![tactic(auto)]

pub mod entries;
pub mod items;
pub mod limits;
pub mod machine;
pub mod networks;
pub mod operators;
pub mod order;
pub mod reader;
pub mod records;
pub mod taking;
pub mod values;
pub mod writer;
