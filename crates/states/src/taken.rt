// Which positions take which byte, laid down once for a column: a row for each byte, the row of the positions behind stars, and the set of
// the bytes that follow others.
ghost use Rattle.std.specs.Prelude.{◌≡◌, true, ◌+◌, ◌*◌, ◌≤◌, ◌<◌, length};
ghost use Rattle.states.specs.Machinery.Rows.{prints_at, stars_at, taken_laid, codes_laid};
ghost use Rattle.states.specs.Machinery.Taken.{marked_at, takes, Marks, RowsLaid, FollowersOf, FollowersSet, LaysTaken};

use crate::bytes::ByteSet;
use crate::limits::{CODES, FIRST_BYTE, FOLLOWERS, LAST_BYTE, STARS, STARS_ROW, TAKEN, TAKEN_ROW};
use crate::named::named_by;
use crate::rows::{clear, is_row, put_row, row_at};
use matching::codes::BEHIND_ONE;
use matching::words::stars_of;

// Marks position p in row i.
fn mark_at(words: &mut [u64], i: usize, p: usize)
    requires { (p < 512) × (i * 8 + 8 ≤ length words.old) }
    ensures { words.new ≡ marked_at words.old i p }
{
    words[i * 8 + p / 64] |= 1u64 << (p % 64);
}

// Marks position p in the rows of all bytes.
fn mark_all(words: &mut [u64], p: usize)
    requires { (p < 512) × (stars_at ≤ length words.old) }
    ensures { Marks words.old words.new p (λ x. true) }
{
    for b in FIRST_BYTE..=LAST_BYTE {
        mark_at(words, TAKEN_ROW + usize::from(b), p);
    }
}

// Marks position p, which has this code, in the rows of the bytes that it takes.
fn mark_code(words: &mut [u64], p: usize, code: u64)
    requires { (p < 512) × (stars_at ≤ length words.old) }
    ensures { Marks words.old words.new p (takes code) }
{
    if code == BEHIND_ONE {
        mark_all(words, p);
    } else {
        for b in named_by(code).bytes() {
            mark_at(words, TAKEN_ROW + usize::from(b), p);
        }
    }
}

// The rows of all bytes, for the codes that are laid down.
fn lay_rows(words: &mut [u64], positions: usize)
    requires { (positions ≤ 512) × (stars_at ≤ length words.old) }
    ensures { RowsLaid (codes_laid positions words.old) words.old words.new }
{
    clear(&mut words[TAKEN..STARS]);
    for p in 0..positions {
        let code = words[CODES + p];
        mark_code(words, p, code);
    }
}

// The small letters that are taken by the same positions as their capitals.
fn followers_of(words: &[u64]) -> ByteSet
    requires { stars_at ≤ length words.now }
    ensures { FollowersOf (taken_laid words.now) result.words }
{
    let mut set = ByteSet::EMPTY;
    for b in b'a'..=b'z' {
        let row = row_at(words, TAKEN_ROW + usize::from(b));
        if is_row(words, TAKEN_ROW + usize::from(b - 32), row) {
            set = set.with(b);
        }
    }
    set
}

// Lays down which bytes follow others.
fn lay_followers(words: &mut [u64])
    requires { prints_at ≤ length words.old }
    ensures { FollowersSet words.old words.new }
{
    let set = followers_of(words);
    words[FOLLOWERS..FOLLOWERS + 2].copy_from_slice(&set.words);
}

/// Which positions take which byte, for the codes that are laid down.
pub fn lay_taken(words: &mut [u64], positions: usize)
    requires { (positions ≤ 512) × (prints_at ≤ length words.old) }
    ensures { LaysTaken (codes_laid positions words.old) words.old words.new }
{
    lay_rows(words, positions);
    let stars = stars_of(&words[CODES..CODES + positions]);
    put_row(words, STARS_ROW, stars);
    lay_followers(words);
}
