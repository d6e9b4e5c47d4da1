// The bytes that words stand for: `61` is a byte, `61*128` the same byte 128 times, and `=text` the value of that text, its kind
// in front. In a text `{61*128}` stands for the word between the braces, and every other byte for itself.
ghost use Rattle.std.specs.Prelude.{◌≡◌, ◌≤◌, ◌<◌, length, drop};
ghost use Rattle.cases.specs.Text.{is_digit, digit_of};
ghost use Rattle.cases.specs.Laying.{is_hex_digit, with_digit, number_of, times_of, byte_laid, hex_laid, sign_behind, sign_laid, text_laid, value_laid, word_laid, words_laid};

use crate::text::{behind_next, is_blank};
use stored::records::byte_at;

/// A decimal digit.
pub fn is_digit(byte: u8) -> bool
    ensures { result ≡ is_digit byte }
{
    matches!(byte, b'0'..=b'9')
}

fn is_hex_digit(byte: u8) -> bool
    ensures { result ≡ is_hex_digit byte }
{
    matches!(byte, b'0'..=b'9' | b'A'..=b'F')
}

/// What a hex digit stands for, 0 for every other byte.
pub fn digit_of(byte: u8) -> u8
    ensures upper_bound { result < 16 }
    ensures value { result ≡ digit_of byte }
{
    match byte {
        b'0'..=b'9' => byte - b'0',
        b'A'..=b'F' => byte - b'A' + 10,
        _ => 0,
    }
}

// The number with one digit more, unless it has five already; a byte that is no digit is passed over.
fn with_digit(number: usize, byte: u8) -> usize
    ensures { result ≡ with_digit number byte }
{
    if number < 10000 && is_digit(byte) {
        number * 10 + usize::from(digit_of(byte))
    } else {
        number
    }
}

// The decimal number that a word is, of five digits at most: those behind are passed over.
fn number_of(word: &[u8]) -> usize
    ensures { result ≡ number_of word.now 0 }
{
    let mut number: usize = 0;
    for &byte in word {
        number = with_digit(number, byte);
    }
    number
}

// How often a word's byte is meant: `61*128` is 128 times, `61` is once.
#[tactic(auto, unfolding(crate::specs::Laying::times_of))]
fn times_of(word: &[u8]) -> usize
    ensures { result ≡ times_of word.now }
{
    match word {
        [_, _, b'*', number @ ..] => number_of(number),
        _ => 1,
    }
}

// Lays a byte down some times from a place on, as far as there is room, and gives the place behind.
fn lay_byte(room: &mut [u8], from: usize, byte: u8, times: usize) -> usize
    ensures on { from ≤ result }
    ensures next { result ≡ (byte_laid times byte room.old from).to }
    ensures laid { room.new ≡ (byte_laid times byte room.old from).room }
{
    let end = from + times.min(room.len().saturating_sub(from));
    if from < end {
        room[from..end].fill(byte);
    }
    end
}

// Lays down what a word in hex stands for, and gives the place behind.
#[tactic(auto, unfolding(crate::specs::Laying::hex_laid))]
fn lay_hex(word: &[u8], room: &mut [u8], from: usize) -> usize
    ensures on { from ≤ result }
    ensures next { result ≡ (hex_laid word.now room.old from).to }
    ensures laid { room.new ≡ (hex_laid word.now room.old from).room }
{
    let high = byte_at(word, 0);
    if !is_hex_digit(high) {
        return from;
    }
    let byte = digit_of(high) * 16 + digit_of(byte_at(word, 1));
    lay_byte(room, from, byte, times_of(word))
}

// The place behind what stands first in a text: one byte, or all up to the closing brace.
#[tactic(auto, unfolding(crate::specs::Laying::sign_behind))]
fn behind_sign(text: &[u8]) -> usize
    requires { 0 < length text.now }
    ensures lower_bound { (0 < result) × (result ≤ length text.now) }
    ensures value { result ≡ sign_behind text.now 0 }
{
    if text[0] == b'{' {
        behind_next(text, 0, b'}')
    } else {
        1
    }
}

// Lays down one byte, or what stands between braces.
#[tactic(auto, unfolding(crate::specs::Laying::sign_laid))]
fn lay_sign(sign: &[u8], room: &mut [u8], from: usize) -> usize
    ensures on { from ≤ result }
    ensures next { result ≡ (sign_laid sign.now room.old from).to }
    ensures laid { room.new ≡ (sign_laid sign.now room.old from).room }
{
    match sign {
        [b'{', word @ ..] => lay_hex(word, room, from),
        _ => lay_byte(room, from, byte_at(sign, 0), 1),
    }
}

/// Lays a text down up to its first blank, and gives the place behind.
pub fn lay_text(text: &[u8], room: &mut [u8], from: usize) -> usize
    ensures on { from ≤ result }
    ensures next { result ≡ (text_laid text.now room.old from).to }
    ensures laid { room.new ≡ (text_laid text.now room.old from).room }
{
    let mut to: usize = from;
    let mut rest = text;
    // stays: no plainer: how much of the text is a sign is known only when its first byte is read
    while let [first, ..] = rest {
        if is_blank(*first) {
            break;
        }
        let (sign, others) = rest.split_at(behind_sign(rest));
        to = lay_sign(sign, room, to);
        rest = others;
    }
    to
}

// Lays down a text as a value, its kind in front, and gives the place behind.
fn lay_value(text: &[u8], room: &mut [u8], from: usize) -> usize
    ensures on { from ≤ result }
    ensures next { result ≡ (value_laid text.now room.old from).to }
    ensures laid { room.new ≡ (value_laid text.now room.old from).room }
{
    let start = lay_byte(room, from, 0, 1);
    let end = lay_text(text, room, start);
    let length = end - start;
    let kind = (length % 256 + 0x3F) % 256;
    lay_byte(room, from, kind as u8, 1);
    end
}

// Lays down what one word stands for, and gives the place behind.
#[tactic(auto, unfolding(crate::specs::Laying::word_laid))]
fn lay_word(word: &[u8], room: &mut [u8], from: usize) -> usize
    ensures next { result ≡ (word_laid word.now room.old from).to }
    ensures laid { room.new ≡ (word_laid word.now room.old from).room }
{
    match word {
        [b'=', text @ ..] => lay_value(text, room, from),
        _ => lay_hex(word, room, from),
    }
}

/// Lays the bytes that the words stand for into the room, and gives their number.
pub fn lay_words(words: &[u8], room: &mut [u8]) -> usize
    ensures next { result ≡ (words_laid words.now room.old).to }
    ensures laid { room.new ≡ (words_laid words.now room.old).room }
{
    let mut size: usize = 0;
    let mut rest = words;
    // stays: no plainer: the definition walks over what is left in just this way
    while !rest.is_empty() {
        let (word, others) = rest.split_at(behind_next(rest, 0, b' '));
        size = lay_word(word, room, size);
        rest = others;
    }
    size
}
