// One value against one string.
ghost use Rattle.std.specs.Prelude.{◌≡◌, ◌<◌, ◌≤◌, ◌∷◌, length};
ghost use Rattle.matching.specs.Matches.{value_matches};
ghost use Rattle.matching.specs.Machinery.SymbolsLeft.{symbols_left, left_matches};
ghost use Rattle.matching.specs.Machinery.Rows.{positions, cell_row};

use crate::codes::{BEHIND_STAR, takes_symbol};
use crate::reading::Reading;
use crate::state::{cell_step, has_position, mark_in};
use crate::symbols::{Symbols, symbols_of};

// The row that a string reaches in a value of these symbols, from the row of the string without its last byte b.
fn row_of_value(symbols: Symbols, begins: bool, b: u8, row: [u64; 8]) -> [u64; 8]
    requires { length (symbols_left symbols) < positions }
    ensures { result ≡ cell_row begins b (1 ∷ symbols_left symbols.entry) row }
{
    // A position in front of all symbols is reached by the empty string alone.
    let mut before = has_position(row, 0);
    let mut new = begins;
    let mut next = [0u64; 8];
    mark_in(&mut next, 0, new);
    for (i, code) in symbols.enumerate() {
        let p = i + 1;
        let here = (row[p / 64] >> (p % 64)) % 2 == 1;
        let reached = cell_step(begins, b, code, new, before, here);
        mark_in(&mut next, p, reached);
        new = reached;
        before = here;
    }
    next
}

// Whether the symbols match the whole string, by the row that the string reaches. Apart, so that what needs no row stays short.
#[inline(never)]
fn rows_match(symbols: Symbols, string: &[u8]) -> bool
    requires { length (symbols_left symbols) < positions }
    ensures { result ≡ left_matches symbols.entry string.now }
{
    let mut row = row_of_value(symbols, true, 0, [0u64; 8]);
    for b in string {
        // stays: tried and the proof does not close: the borrow checker does not cover a call's array laid in `row` itself.
        let next = row_of_value(symbols, false, *b, row);
        row = next;
    }
    has_position(row, symbols.len())
}

// Whether the symbols match the whole string. Up to the first star each symbol takes one byte, so that the first byte that differs
// decides.
fn left_matches(symbols: Symbols, string: &[u8]) -> bool
    requires { length (symbols_left symbols) < positions }
    ensures { result ≡ left_matches symbols.entry string.now }
{
    let mut left = symbols;
    let mut rest = string;
    // stays: no plainer: at a star, symbols and string go on together from where they are
    while let Some((code, behind)) = left.split_first() {
        if code == BEHIND_STAR {
            // A last star takes any string.
            return behind.is_empty() || rows_match(left, rest);
        }
        let Some((b, others)) = rest.split_first() else {
            return false;
        };
        if !takes_symbol(code, *b) {
            return false;
        }
        left = behind;
        rest = others;
    }
    rest.is_empty()
}

/// Whether the value, read as its column or operator reads it, matches the whole string.
pub fn value_matches(value: &[u8], reading: Reading, string: &[u8]) -> bool
    requires { length value.now ≤ 511 }
    ensures { result ≡ value_matches reading value.now string.now }
{
    left_matches(symbols_of(value, reading), string)
}
