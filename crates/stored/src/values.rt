// What the bytes of a value may be (RULES 7.1, 7 and 8). No byte ends a loop here, so that the compiler may look at
// many bytes at once.
ghost use Rattle.std.specs.Prelude.{◌≡◌};
ghost use Rattle.stored.specs.Values.{byte_in_range, in_range, is_wildcard, has_variable, has_wildcard, is_star_alone};

fn is_byte_in_range(byte: u8) -> bool
    ensures { result ≡ byte_in_range byte }
{
    matches!(byte, 0x21..=0x7E)
}

/// Every byte lies in 21 to 7E hex.
pub fn is_in_range(bytes: &[u8]) -> bool
    ensures { result ≡ in_range bytes.now }
{
    let mut every = true;
    for &byte in bytes {
        every &= is_byte_in_range(byte);
    }
    every
}

// `${` stands somewhere.
pub(crate) fn has_variable(bytes: &[u8]) -> bool
    ensures { result ≡ has_variable bytes.now }
{
    let mut found = false;
    let mut dollar = false;
    for &byte in bytes {
        found |= dollar & (byte == b'{');
        dollar = byte == b'$';
    }
    found
}

fn is_wildcard(byte: u8) -> bool
    ensures { result ≡ is_wildcard byte }
{
    matches!(byte, b'*' | b'?')
}

// `*` or `?` stands somewhere.
pub(crate) fn has_wildcard(bytes: &[u8]) -> bool
    ensures { result ≡ has_wildcard bytes.now }
{
    let mut found = false;
    for &byte in bytes {
        found |= is_wildcard(byte);
    }
    found
}

// `*` and nothing else.
pub(crate) fn is_star_alone(bytes: &[u8]) -> bool
    ensures { result ≡ is_star_alone bytes.now }
{
    matches!(bytes, [b'*'])
}
