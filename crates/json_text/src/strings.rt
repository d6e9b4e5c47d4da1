// Inside a string, byte by byte.
ghost use Rattle.std.specs.Prelude.{◌≡◌};
ghost use Rattle.json_text.specs.Machinery.Strings.{taken_if, plain_step, wide_step, escape_step, inside_step};

use crate::bytes::{is_hex, is_plain, is_simple};

/// Where in a string: what was read since the last whole character.
#[derive(Clone, Copy, Debug, PartialEq, Eq)]
pub enum Inside {
    /// Nothing.
    Plain,
    /// A backslash.
    Escape,
    /// \u.
    Code,
    /// \u0.
    Zero,
    /// \u00.
    High,
    /// \u00 and the third digit.
    Low,
    /// One byte 80 to BF is due.
    One,
    /// Two bytes 80 to BF are due.
    Two,
    /// Three bytes 80 to BF are due.
    Three,
    /// E0: a byte A0 to BF is due, then one.
    AfterE0,
    /// ED: a byte 80 to 9F is due, then one.
    AfterED,
    /// F0: a byte 90 to BF is due, then two.
    AfterF0,
    /// F4: a byte 80 to 8F is due, then two.
    AfterF4,
}

/// What a byte in a string leads to.
#[derive(Clone, Copy, Debug, PartialEq, Eq)]
pub enum Within {
    /// The string goes on.
    Goes(Inside),
    /// The string ends with this byte.
    Closes,
    /// The byte may not come there.
    Fails,
}

fn taken(good: bool, next: Inside) -> Within
    ensures { result ≡ taken_if good next }
{
    if good {
        Within::Goes(next)
    } else {
        Within::Fails
    }
}

// The first byte of a character of several.
fn wide_step(byte: u8) -> Within
    ensures { result ≡ wide_step byte }
{
    match byte {
        0xC2..=0xDF => Within::Goes(Inside::One),
        0xE0 => Within::Goes(Inside::AfterE0),
        0xED => Within::Goes(Inside::AfterED),
        0xE1..=0xEF => Within::Goes(Inside::Two),
        0xF0 => Within::Goes(Inside::AfterF0),
        0xF4 => Within::Goes(Inside::AfterF4),
        0xF1..=0xF3 => Within::Goes(Inside::Three),
        _ => Within::Fails,
    }
}

fn plain_step(byte: u8) -> Within
    ensures { result ≡ plain_step byte }
{
    match byte {
        _ if is_plain(byte) => Within::Goes(Inside::Plain),
        b'"' => Within::Closes,
        b'\\' => Within::Goes(Inside::Escape),
        _ => wide_step(byte),
    }
}

fn escape_step(byte: u8) -> Within
    ensures { result ≡ escape_step byte }
{
    match byte {
        _ if is_simple(byte) => Within::Goes(Inside::Plain),
        b'u' => Within::Goes(Inside::Code),
        _ => Within::Fails,
    }
}

// One byte of a string.
pub(crate) fn inside_step(inside: Inside, byte: u8) -> Within
    ensures { result ≡ inside_step inside byte }
{
    match inside {
        Inside::Plain => plain_step(byte),
        Inside::Escape => escape_step(byte),
        Inside::Code => taken(byte == b'0', Inside::Zero),
        Inside::Zero => taken(byte == b'0', Inside::High),
        Inside::High => taken(matches!(byte, b'0'..=b'7'), Inside::Low),
        Inside::Low => taken(is_hex(byte), Inside::Plain),
        Inside::One => taken(matches!(byte, 0x80..=0xBF), Inside::Plain),
        Inside::Two => taken(matches!(byte, 0x80..=0xBF), Inside::One),
        Inside::Three => taken(matches!(byte, 0x80..=0xBF), Inside::Two),
        Inside::AfterE0 => taken(matches!(byte, 0xA0..=0xBF), Inside::One),
        Inside::AfterED => taken(matches!(byte, 0x80..=0x9F), Inside::One),
        Inside::AfterF0 => taken(matches!(byte, 0x90..=0xBF), Inside::Two),
        Inside::AfterF4 => taken(matches!(byte, 0x80..=0x8F), Inside::Two),
    }
}
