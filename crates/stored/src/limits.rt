// The limits of a stored table (RULES 2).

/// Bytes of a table.
pub const MOST_BYTES: usize = 16384;
/// Statements of a table.
pub const MOST_STATEMENTS: u8 = 32;
/// Values and networks of a statement, together.
pub const MOST_VALUES: u8 = 64;
/// Conditions of a statement.
pub const MOST_CONDITIONS: u8 = 4;
/// Bytes of a value.
pub const MOST_LENGTH: usize = 128;
