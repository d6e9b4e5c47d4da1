// Exploring a column: all states of strings, breadth first, each found by the first step that leads to it.
ghost use Rattle.std.specs.Prelude.{◌≡◌, ◌+◌, ◌*◌, ◌<◌};
ghost use Rattle.states.specs.Machinery.Rows.{IsByte, codes_laid, row_at};
ghost use Rattle.states.specs.Machinery.Search.{Searchable, Enough, Partial, Searched, Explores};

use crate::bytes::{ByteSet, bytes_to_try};
use crate::limits::{CODES, FOLLOWERS, KEYS, MOST_STATES, STARS, TAKEN_ROW};
use crate::named::name_positions;
use crate::rows::{find_row, put_row, row_at};
use matching::state::first_state;
use matching::words::{ahead_of, step_words};

// The bytes to try from a row: every other one leads where a smaller one leads.
fn bytes_from(words: &[u64], positions: usize, row: [u64; 8]) -> ByteSet
    requires { Searchable positions words.now }
    ensures { Enough (codes_laid positions words.now) row result.words }
{
    let ahead = ahead_of(row);
    let used = positions.div_ceil(64);
    let named = name_positions(words, ahead, used);
    let followers = ByteSet {
        words: [words[FOLLOWERS], words[FOLLOWERS + 1]],
    };
    bytes_to_try(named, followers)
}

// The step from row i by byte b, after n rows were found by the steps before it: how many there are now, or none where they pass 512.
fn try_step(
    words: &mut [u64],
    positions: usize,
    i: usize,
    from: [u64; 8],
    b: u8,
    n: usize,
) -> Option<usize>
    requires { Searchable positions words.old × (i < n) × IsByte b × (from ≡ row_at words.old i)
        × Partial (codes_laid positions words.old) words.old n (i * 128 + b) }
    ensures searched { Searched positions words.old words.new n (i * 128 + b + 1) result }
    ensures kept { row_at words.new i ≡ row_at words.old i }
{
    let byte = usize::from(b);
    let taken = (TAKEN_ROW + byte) * 8;
    let used = positions.div_ceil(64);
    let row = step_words(
        &words[taken..taken + 8],
        &words[STARS..STARS + 8],
        from,
        used,
    );
    if find_row(words, n, row).is_some() {
        return Some(n);
    }
    if MOST_STATES <= n {
        return None;
    }
    put_row(words, n, row);
    words[KEYS + n] = (i * 128 + byte) as u64;
    Some(n + 1)
}

// The steps from row i by all bytes, ascending, after n rows were found by those from the rows before it. A byte that is not tried leads
// to the same row as a smaller one.
fn try_bytes(words: &mut [u64], positions: usize, i: usize, n: usize) -> Option<usize>
    requires { Searchable positions words.old × (i < n) × Partial (codes_laid positions words.old) words.old n (i * 128) }
    ensures { Searched positions words.old words.new n ((i + 1) * 128) result }
{
    let from = row_at(words, i);
    let mut found = n;
    for b in bytes_from(words, positions, from).bytes() {
        found = try_step(words, positions, i, from, b, found)?;
    }
    Some(found)
}

/// All states of the strings of a column, given the codes of its positions: how many there are, or none where they pass 512. Only the words
/// of their rows and keys change.
pub fn explore(words: &mut [u64], positions: usize) -> Option<usize>
    requires { Searchable positions words.old }
    ensures { Explores (codes_laid positions words.old) words.old words.new result }
{
    let first = first_state(&words[CODES..CODES + positions]);
    put_row(words, 0, first);
    let mut n: usize = 1;
    let mut row: usize = 0;
    // stays: no plainer: n grows on the way, which a range would not see
    while row < n {
        n = try_bytes(words, positions, row, n)?;
        row += 1;
    }
    Some(n)
}
