// The string that a row was found by, read off the keys.
ghost use Rattle.std.specs.Prelude.{◌≡◌, ◌+◌, ◌≤◌, ◌<◌, length};
ghost use Rattle.std.proofs.lemmas.List.Edits.{sets};
ghost use Rattle.states.specs.Machinery.Search.{HasString, string_of};

use crate::limits::KEYS;

/// The bytes of the string of a row, from the last one to the first.
#[derive(Drop)]
struct FromLast<'a> {
    words: &'a [u64],
    row: usize,
}

impl<'a> Iterator for FromLast<'a> {
    ghost use Rattle.std.specs.Iterator.{YieldsFirst, item_count};
    ghost use Rattle.states.specs.Machinery.StringLeft.{bytes_left};

    type Item = u8;

    ghost can_next = { λ s. HasString s.words.now s.row (s.row + 1) };

    ghost next_gives = { YieldsFirst bytes_left };

    ghost remaining = { item_count bytes_left };

    fn next(&mut self) -> Option<u8> {
        if self.row == 0 {
            return None;
        }
        let key = self.words[KEYS + self.row];
        self.row = (key / 128) as usize;
        Some((key % 128) as u8)
    }
}

/// The length of the string of row i.
pub fn string_length(words: &[u64], i: usize, n: usize) -> usize
    requires { HasString words.now i n }
    ensures { result ≡ length (string_of words.now i) }
{
    FromLast { words, row: i }.count()
}

/// Lays the string of row i down at a place, and answers its length.
pub fn lay_string(words: &[u64], i: usize, n: usize, values: &mut [u8], at: usize) -> usize
    requires { HasString words.now i n × (at + 512 ≤ length values.old) }
    ensures laid { values.new ≡ sets values.old at (string_of words.now i) }
    ensures size { result ≡ length (string_of words.now i) }
{
    let size = string_length(words, i, n);
    let places = (at..at + size).rev();
    for (place, byte) in places.zip(FromLast { words, row: i }) {
        values[place] = byte;
    }
    size
}
