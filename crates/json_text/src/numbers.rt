// Inside a number, byte by byte. A number ends before the byte that is none of it.
ghost use Rattle.std.specs.Prelude.{◌≡◌};
ghost use Rattle.json_text.specs.Machinery.Numbers.{counted_if, minus_step, tail_step, whole_step, part_step, exponent_step, power_step, numeral_step, can_end};

use crate::bytes::{is_digit, is_exponent, is_sign};

/// What was read last.
#[derive(Clone, Copy, Debug, PartialEq, Eq)]
pub enum Numeral {
    /// The minus before the number.
    Minus,
    /// A single zero, which no digit follows.
    Zero,
    /// A digit of the whole part.
    Whole,
    /// The point.
    Point,
    /// A digit behind the point.
    Part,
    /// The letter of the exponent.
    Exponent,
    /// The exponent's sign.
    Sign,
    /// A digit of the exponent.
    Power,
}

/// What a byte in a number, or behind it, leads to.
#[derive(Clone, Copy, Debug, PartialEq, Eq)]
pub enum Counted {
    /// The number goes on.
    Goes(Numeral),
    /// The number has ended before this byte.
    Ends,
    /// The byte may not come there.
    Fails,
}

fn counted_if(good: bool, next: Numeral) -> Counted
    ensures { result ≡ counted_if good next }
{
    if good {
        Counted::Goes(next)
    } else {
        Counted::Fails
    }
}

fn minus_step(byte: u8) -> Counted
    ensures { result ≡ minus_step byte }
{
    match byte {
        b'0' => Counted::Goes(Numeral::Zero),
        b'1'..=b'9' => Counted::Goes(Numeral::Whole),
        _ => Counted::Fails,
    }
}

// Behind the whole part: a point, an exponent, or the end.
fn tail_step(byte: u8) -> Counted
    ensures { result ≡ tail_step byte }
{
    match byte {
        b'.' => Counted::Goes(Numeral::Point),
        _ if is_exponent(byte) => Counted::Goes(Numeral::Exponent),
        _ => Counted::Ends,
    }
}

fn whole_step(byte: u8) -> Counted
    ensures { result ≡ whole_step byte }
{
    if is_digit(byte) {
        Counted::Goes(Numeral::Whole)
    } else {
        tail_step(byte)
    }
}

fn part_step(byte: u8) -> Counted
    ensures { result ≡ part_step byte }
{
    match byte {
        _ if is_digit(byte) => Counted::Goes(Numeral::Part),
        _ if is_exponent(byte) => Counted::Goes(Numeral::Exponent),
        _ => Counted::Ends,
    }
}

fn exponent_step(byte: u8) -> Counted
    ensures { result ≡ exponent_step byte }
{
    if is_sign(byte) {
        Counted::Goes(Numeral::Sign)
    } else {
        counted_if(is_digit(byte), Numeral::Power)
    }
}

fn power_step(byte: u8) -> Counted
    ensures { result ≡ power_step byte }
{
    if is_digit(byte) {
        Counted::Goes(Numeral::Power)
    } else {
        Counted::Ends
    }
}

// One byte of a number, or behind it.
pub(crate) fn numeral_step(numeral: Numeral, byte: u8) -> Counted
    ensures { result ≡ numeral_step numeral byte }
{
    match numeral {
        Numeral::Minus => minus_step(byte),
        Numeral::Zero => tail_step(byte),
        Numeral::Whole => whole_step(byte),
        Numeral::Point => counted_if(is_digit(byte), Numeral::Part),
        Numeral::Part => part_step(byte),
        Numeral::Exponent => exponent_step(byte),
        Numeral::Sign => counted_if(is_digit(byte), Numeral::Power),
        Numeral::Power => power_step(byte),
    }
}

// A number may end here.
pub(crate) fn can_end(numeral: Numeral) -> bool
    ensures { result ≡ can_end numeral }
{
    matches!(
        numeral,
        Numeral::Zero | Numeral::Whole | Numeral::Part | Numeral::Power
    )
}
