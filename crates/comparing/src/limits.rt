// The limits of a comparison (RULES 6 and 7.3); that of the states of a column is states::limits::MOST_STATES.

/// Words of a workspace, at least.
pub const WORKSPACE_WORDS: usize = 8192;

/// Bytes of a value buffer, at least.
pub const VALUE_BYTES: usize = 3584;

/// Bytes of one value in it.
pub const VALUE_ROOM: usize = 512;

/// The sum of (length plus 1) over the values of a column.
pub const MOST_POSITIONS: usize = 512;

/// The networks of column 7.
pub const MOST_NETWORKS: usize = 128;

/// The product of the footprint counts.
pub const MOST_KINDS: u64 = 16777216;

/// The columns of a request.
pub const COLUMNS: usize = 8;

/// The set of all rows.
pub const ALL_ROWS: u64 = u64::MAX;
