// The state of a column: a row of eight words, a bit for each position.
ghost use Rattle.std.specs.Prelude.{◌≡◌, ◌<◌};
ghost use Rattle.matching.specs.Machinery.Rows.{positions, row_bit, mark_row, cell_step, first_row};

use crate::codes::{BEHIND_ONE, BEHIND_STAR, START, takes_byte};

/// The number of positions of a row.
pub const POSITIONS: usize = 512;

/// Whether position p is in the state.
pub fn has_position(row: [u64; 8], p: usize) -> bool
    ensures { result ≡ row_bit row p }
{
    p < POSITIONS && (row[p / 64] >> (p % 64)) % 2 == 1
}

/// The row with position p marked, or as it is.
pub fn mark(row: [u64; 8], p: usize, reached: bool) -> [u64; 8]
    requires { p < positions }
    ensures { result ≡ mark_row row p reached }
{
    let mut marked = row;
    mark_in(&mut marked, p, reached);
    marked
}

// Marks position p in the row, or leaves the row as it is.
pub(crate) fn mark_in(row: &mut [u64; 8], p: usize, reached: bool)
    requires { p < positions }
    ensures { row.new ≡ mark_row row.old p reached }
{
    if reached {
        row[p / 64] |= 1u64 << (p % 64);
    }
}

// Whether a string reaches the position with this code. begins: the string is empty, else b is its last byte. new: it reaches the
// position in front; before: it did so without b; here: it reached this position without b.
pub(crate) fn cell_step(begins: bool, b: u8, code: u64, new: bool, before: bool, here: bool) -> bool
    ensures { result ≡ cell_step begins b code new before here }
{
    match code {
        START => begins,
        BEHIND_STAR => new || here,
        BEHIND_ONE => before,
        _ => before && takes_byte(code, b),
    }
}

/// The row of the empty string.
pub fn first_state(codes: &[u64]) -> [u64; 8]
    ensures { result ≡ first_row codes.now }
{
    let mut row = [0u64; 8];
    let mut new = false;
    let within = &codes[..POSITIONS.min(codes.len())];
    for (p, code) in within.iter().enumerate() {
        new = cell_step(true, 0, *code, new, false, false);
        mark_in(&mut row, p, new);
    }
    row
}
