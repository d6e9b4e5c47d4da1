// How many states a column may have (RULES 7.3), the bytes of strings, and how the workspace is laid out.

/// The states of a column.
pub const MOST_STATES: usize = 512;

/// The lowest byte of strings.
pub const FIRST_BYTE: u8 = 0x21;

/// The highest byte of strings.
pub const LAST_BYTE: u8 = 0x7E;

// In the workspace: 512 rows of eight words, the key of each row, the codes of the column's positions, for each byte the row of the
// positions that take it, the row of the positions behind stars, the set of the bytes that follow others, and the footprints of all
// columns, one behind the other.

/// Where the keys of the rows begin: that of row i says the row and the byte that led to it.
pub const KEYS: usize = 4096;

/// Where the codes of the positions begin.
pub const CODES: usize = 4608;

/// Where the rows of the positions that take a byte begin.
pub const TAKEN: usize = 5120;

/// Where the row of the positions behind stars begins.
pub const STARS: usize = 5872;

/// Where the set of the bytes that follow others begins.
pub const FOLLOWERS: usize = 5880;

/// The row of byte b is number TAKEN_ROW + b: that of the first byte, 33, begins at 5,120.
pub const TAKEN_ROW: usize = 607;

/// The number of the row of the positions behind stars.
pub const STARS_ROW: usize = 734;

/// Where the footprints of the columns begin.
pub const PRINTS: usize = 5976;
