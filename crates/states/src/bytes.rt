// Sets of bytes below 128, and which bytes of strings are tried from a state.
ghost use Rattle.std.specs.Prelude.{◌≡◌, ◌+◌, ◌-◌, eqb, IfSome};
ghost use Rattle.std.specs.Iterator.{at_most};
ghost use Rattle.states.specs.Machinery.Bytes.{Adds, Others, Common, NextBit, NextByte, ToTry};

use crate::limits::{FIRST_BYTE, LAST_BYTE};
use std::ops::{BitAnd, Not};

/// A set of bytes below 128: bit b of the two words says whether byte b is among them.
#[derive(Clone, Copy)]
pub(crate) struct ByteSet {
    pub words: [u64; 2],
}

impl ByteSet {
    /// No byte.
    pub const EMPTY: ByteSet = ByteSet { words: [0; 2] };

    /// This and one byte more; a number over 127 is none.
    pub fn with(self, b: u8) -> ByteSet
        ensures { Adds self.words (λ x. eqb x b) result.words }
    {
        let [low, high] = self.words;
        let bit = 1u64 << (b % 64);
        if b < 64 {
            ByteSet {
                words: [low | bit, high],
            }
        } else if b < 128 {
            ByteSet {
                words: [low, high | bit],
            }
        } else {
            self
        }
    }

    /// The lowest byte of strings from one on.
    fn next_byte(self, from: u8) -> Option<u8>
        ensures { NextByte self.words from result }
    {
        if let Some(bit) = next_bit(self.words[0], u32::from(from)) {
            return Some(bit as u8);
        }
        let bit = next_bit(self.words[1], u32::from(from.saturating_sub(64)))?;
        let b = 64 + bit as u8;
        if b <= LAST_BYTE { Some(b) } else { None }
    }

    /// The bytes of strings, ascending.
    pub fn bytes(self) -> Bytes
        ensures set { result.set ≡ self }
        ensures from { result.from ≡ 0x21 }
    {
        Bytes {
            set: self,
            from: FIRST_BYTE,
        }
    }
}

impl Not for ByteSet {
    type Output = ByteSet;

    ghost not_gives = { λ set result. Others set.words result.words };

    fn not(self) -> ByteSet {
        let [low, high] = self.words;
        ByteSet {
            words: [!low, !high],
        }
    }
}

impl BitAnd for ByteSet {
    type Output = ByteSet;

    ghost bitand_gives = { λ set other result. Common set.words other.words result.words };

    fn bitand(self, other: ByteSet) -> ByteSet {
        let [low, high] = self.words;
        ByteSet {
            words: [low & other.words[0], high & other.words[1]],
        }
    }
}

/// The bytes of strings in a set, ascending from one on.
#[derive(Drop)]
pub(crate) struct Bytes {
    set: ByteSet,
    from: u8,
}

impl Iterator for Bytes {
    type Item = u8;

    ghost next_gives = { λ s r t. NextByte s.set.words s.from r × (t.set ≡ s.set) × IfSome r (λ b. t.from ≡ b + 1) };

    ghost remaining = { λ s. at_most (127 - s.from) };

    fn next(&mut self) -> Option<u8> {
        let b = self.set.next_byte(self.from)?;
        self.from = b + 1;
        Some(b)
    }
}

/// The lowest bit of a word, from one on, that is set.
pub(crate) fn next_bit(word: u64, from: u32) -> Option<u32>
    ensures { NextBit word from result }
{
    let left = word.checked_shr(from)?;
    if left == 0 {
        None
    } else {
        Some(from + left.trailing_zeros())
    }
}

// The bytes to try where these are named: they and the lowest that is not, without those that follow others.
pub(crate) fn bytes_to_try(named: ByteSet, followers: ByteSet) -> ByteSet
    ensures { ToTry named.words followers.words result.words }
{
    let unnamed = !named;
    let tried = match unnamed.bytes().next() {
        Some(lowest) => named.with(lowest),
        None => named,
    };
    tried & !followers
}
