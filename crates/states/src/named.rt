// The bytes that positions take by name: all others lead alike from the positions in front of them.
ghost use Rattle.std.specs.Prelude.{◌≡◌, ◌*◌, ◌+◌, ◌≤◌, ◌<◌, ◌-◌, ℕ, eqb, length, count_ones, MatchOption};
ghost use Rattle.std.specs.Iterator.{at_most};
ghost use Rattle.matching.specs.Machinery.Codes.{takes_byte};
ghost use Rattle.matching.specs.Symbols.{fold_byte};
ghost use Rattle.states.specs.Machinery.Rows.{taken_at};
ghost use Rattle.states.specs.Machinery.Bytes.{Adds, SetOf, NextBit, Without, NamesWord, Names};

use crate::bytes::{ByteSet, next_bit};
use crate::limits::CODES;

// A set and the bytes that are this one without their case: none is a capital letter.
fn with_folded(set: ByteSet, b: u8) -> ByteSet
    ensures { Adds set.words (λ x. eqb (fold_byte x) b) result.words }
{
    match b {
        b'A'..=b'Z' => set,
        b'a'..=b'z' => set.with(b).with(b - 32),
        _ => set.with(b),
    }
}

// A set and the bytes that a position with this code takes by name.
fn with_named(set: ByteSet, code: u64) -> ByteSet
    ensures { Adds set.words (takes_byte code) result.words }
{
    if code < 4 {
        return set;
    }
    let Ok(b) = u8::try_from(code / 2 - 2) else {
        return set;
    };
    if code % 2 == 0 {
        set.with(b)
    } else {
        with_folded(set, b)
    }
}

/// The bytes that a position with this code takes by name.
pub(crate) fn named_by(code: u64) -> ByteSet
    ensures { SetOf (takes_byte code) result.words }
{
    with_named(ByteSet::EMPTY, code)
}

/// The places of the bits of a word that are set, ascending; left: the word without those that were passed.
#[derive(Drop)]
struct SetBits {
    left: u64,
}

impl Iterator for SetBits {
    type Item = u32;

    ghost next_gives = { λ s r t. NextBit s.left 0 r × MatchOption r (t.left ≡ s.left) (λ k. Without s.left k t.left × (t.left < s.left) × (count_ones t.left + 1 ≡ count_ones s.left)) };

    ghost remaining = { λ s. at_most (count_ones s.left) };

    fn next(&mut self) -> Option<u32> {
        let k = next_bit(self.left, 0)?;
        self.left &= self.left - 1;
        Some(k)
    }
}

// Also the bytes named by the positions of one word of a row; from: the first of these.
// stays: fixed lent memory: the codes of the positions stand at a place of the workspace.
fn name_word(words: &[u64], named: ByteSet, from: usize, word: u64) -> ByteSet
    requires { (from ≤ 448) × (taken_at ≤ length words.now) }
    ensures { NamesWord words.now from word named.words result.words 64 }
{
    let mut all = named;
    for k in (SetBits { left: word }) {
        all = with_named(all, words[CODES + from + k as usize]);
    }
    all
}

// The bytes named by the positions of a row's first words.
pub(crate) fn name_positions(words: &[u64], row: [u64; 8], used: usize) -> ByteSet
    requires { (used ≤ 8) × (taken_at ≤ length words.now) }
    ensures { Names words.now row (64 * used) result.words }
{
    let mut named = ByteSet::EMPTY;
    for i in 0..used {
        named = name_word(words, named, i * 64, row[i]);
    }
    named
}

#[cfg(test)]
mod tests {
    use super::*;

    #[test]
    fn each_bit_comes_once_and_then_none(rt: HostRuntime) {
        let mut bits = SetBits {
            left: 0x8000_0000_0000_00A1,
        };
        for want in [Some(0), Some(5), Some(7), Some(63), None, None] {
            assert_eq!(rt; bits.next(), want);
        }
        assert_eq!(rt; bits.left, 0);
    }
}
