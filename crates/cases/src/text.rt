// The text of the cases: its lines, its words, and parts of them.
ghost use Rattle.std.specs.Prelude.{◌≡◌, ◌+◌, ◌≤◌, ◌<◌, length, take, drop, ◌↔◌, IsNone, IfSome};
ghost use Rattle.cases.specs.Text.{part_of, up_to, stand_at, is_blank};

use stored::records::byte_at;

/// The first so many bytes, or all where there are fewer.
pub fn first_bytes(bytes: &[u8], size: usize) -> &[u8]
    ensures { result.now ≡ take size bytes.now }
{
    &bytes[..size.min(bytes.len())]
}

/// The bytes from a place to another, or none where there is no such part.
pub fn part_of(bytes: &[u8], from: usize, to: usize) -> &[u8]
    ensures { result.now ≡ part_of bytes.now from to }
{
    bytes.get(from..to).unwrap_or(&[])
}

/// The place behind the next separator, or the end.
pub fn behind_next(text: &[u8], from: usize, separator: u8) -> usize
    requires { from < length text.now }
    ensures lower_bound { (from < result) × (result ≤ length text.now) }
    ensures value { result ≡ from + up_to 1 separator (drop from text.now) }
{
    (from + place_of(&text[from..], separator) + 1).min(text.len())
}

/// How many bytes stand in front of the first that is wanted, or in all.
pub fn place_of(text: &[u8], wanted: u8) -> usize
    ensures upper_bound { result ≤ length text.now }
    ensures value { result ≡ up_to 0 wanted text.now }
{
    text.iter()
        .position(|byte| *byte == wanted)
        .unwrap_or(text.len())
}

/// What stands in front of the first separator and what stands behind it, if there is one.
pub fn split_once(text: &[u8], separator: u8) -> Option<(&[u8], &[u8])>
    ensures none { IsNone result ↔ (up_to 0 separator text.now ≡ length text.now) }
    ensures parts { IfSome result (λ parts. (parts.0.now ≡ take (up_to 0 separator text.now) text.now) × (parts.1.now ≡ drop (up_to 0 separator text.now + 1) text.now)) }
{
    let (front, rest) = text.split_at(place_of(text, separator));
    let (_, behind) = rest.split_first()?;
    Some((front, behind))
}

/// The text begins with these bytes.
pub fn begins_with(text: &[u8], bytes: &[u8]) -> bool
    ensures { result ≡ stand_at text.now 0 bytes.now }
{
    // stays: what may not change stand_at: 0 stands past the end of the text, which `starts_with` does not say
    for (at, &byte) in bytes.iter().enumerate() {
        if byte_at(text, at) != byte {
            return false;
        }
    }
    true
}

/// A word ends here.
pub fn is_blank(byte: u8) -> bool
    ensures { result ≡ is_blank byte }
{
    matches!(byte, b' ' | b'\n')
}
