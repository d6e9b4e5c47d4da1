// Classes of bytes, as specs/Bytes names them.
ghost use Rattle.std.specs.Prelude.{◌≡◌};
ghost use Rattle.json_text.specs.Bytes.{is_blank, is_digit, is_hex, is_exponent, is_sign, is_simple, is_plain};

pub(crate) fn is_blank(byte: u8) -> bool
    ensures { result ≡ is_blank byte }
{
    matches!(byte, b' ' | b'\t' | b'\n' | b'\r')
}

pub(crate) fn is_digit(byte: u8) -> bool
    ensures { result ≡ is_digit byte }
{
    matches!(byte, b'0'..=b'9')
}

pub(crate) fn is_hex(byte: u8) -> bool
    ensures { result ≡ is_hex byte }
{
    matches!(byte, b'0'..=b'9' | b'A'..=b'F' | b'a'..=b'f')
}

pub(crate) fn is_exponent(byte: u8) -> bool
    ensures { result ≡ is_exponent byte }
{
    matches!(byte, b'e' | b'E')
}

pub(crate) fn is_sign(byte: u8) -> bool
    ensures { result ≡ is_sign byte }
{
    matches!(byte, b'+' | b'-')
}

// Quote, backslash and slash stand for themselves behind a backslash.
pub(crate) fn is_simple(byte: u8) -> bool
    ensures { result ≡ is_simple byte }
{
    matches!(byte, b'"' | b'\\' | b'/')
}

// A byte of a string that stands for itself.
pub(crate) fn is_plain(byte: u8) -> bool
    ensures { result ≡ is_plain byte }
{
    matches!(byte, 0x20..=0x7F) && !matches!(byte, b'"' | b'\\')
}
