// The records that a policy in the public JSON form would make, one after the other, in the order of the table.

#![tactic(auto)]

pub mod conditions;
pub mod cursor;
pub mod effects;
pub mod rows;
pub mod stages;
pub mod values;
pub mod walking;
pub mod wishes;
