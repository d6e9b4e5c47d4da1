// The step of a state by words: which positions stand behind a star, and 64 positions at once.
ghost use Rattle.std.specs.Prelude.{◌≡◌, ◌≤◌, length};
ghost use Rattle.matching.specs.Machinery.Rows.{word_bit, pack_word};
ghost use Rattle.matching.specs.Machinery.Words.{star_row, ahead_row, words_row, moved_up, base_bit, over_bit};

use crate::codes::BEHIND_STAR;
use crate::state::{POSITIONS, mark_in};

/// The positions behind a star.
pub fn stars_of(codes: &[u64]) -> [u64; 8]
    ensures { result ≡ star_row codes.now }
{
    let mut row = [0u64; 8];
    let within = &codes[..POSITIONS.min(codes.len())];
    for (p, code) in within.iter().enumerate() {
        mark_in(&mut row, p, *code == BEHIND_STAR);
    }
    row
}

// A word with each bit one position up, and the topmost bit of the word before it as its lowest.
fn moved_up(word: u64, before: u64) -> u64
    ensures { result ≡ pack_word 64 (moved_up (word_bit word) (word_bit before 63)) }
{
    (word << 1) | (before >> 63)
}

/// The positions behind those of a row.
pub fn ahead_of(row: [u64; 8]) -> [u64; 8]
    ensures { result ≡ ahead_row row }
{
    let mut ahead = [0u64; 8];
    let mut before: u64 = 0;
    for (i, word) in row.iter().enumerate() {
        ahead[i] = moved_up(*word, before);
        before = *word;
    }
    ahead
}

// What a byte leads to, and the stars that keep what they had, in one word. before: the old word before it.
fn base_word(taken: u64, stars: u64, old: u64, before: u64) -> u64
    ensures { result ≡ pack_word 64 (base_bit (word_bit taken) (word_bit stars) (word_bit old) (word_bit before 63)) }
{
    let moved = moved_up(old, before);
    (moved & taken) | (old & stars)
}

// A word in which each star takes over what the position in front has. before: the new word before it. A seed is a star in front of
// which something is reached; the sum carries from it through the stars behind it, so a star takes over where the sum changed its bit
// or where it is a seed itself.
fn take_over(base: u64, stars: u64, before: u64) -> u64
    ensures { result ≡ pack_word 64 (over_bit (word_bit base) (word_bit stars) (word_bit before 63)) }
{
    let moved = moved_up(base, before);
    let seeds = moved & stars;
    let sum = stars.wrapping_add(seeds);
    base | (((sum ^ stars) | seeds) & stars)
}

/// The row of one byte more, by its first words: from the positions to which the byte leads and those behind a star.
pub fn step_words(taken: &[u64], stars: &[u64], row: [u64; 8], used: usize) -> [u64; 8]
    requires { (8 ≤ length taken.now) × (8 ≤ length stars.now) × (used ≤ 8) }
    ensures { result ≡ words_row used taken.now stars.now row }
{
    let mut next = [0u64; 8];
    let mut old_before: u64 = 0;
    let mut new_before: u64 = 0;
    for i in 0..used {
        let base = base_word(taken[i], stars[i], row[i], old_before);
        let new = take_over(base, stars[i], new_before);
        next[i] = new;
        old_before = row[i];
        new_before = new;
    }
    next
}
