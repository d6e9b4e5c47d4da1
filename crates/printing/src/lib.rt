// Lines laid out in a lent buffer: runs of bytes and numbers in decimal, one behind the other.

#![tactic(auto)]

ghost use Rattle.std.specs.Prelude.{◌≡◌, ◌++◌, ◌+◌, ◌≤◌, length};
ghost use Rattle.printing.specs.Decimals.{decimal_of};
ghost use Rattle.printing.specs.Laying.{Laid};

// stays: what may not change: docs/PROMISES.md names put, put_named, put_decimal and put_number, each with the buffer and the place

/// Lays bytes down at a place.
pub fn put(out: &mut [u8], at: usize, bytes: &[u8]) -> usize
    requires { at + length bytes.now ≤ length out.old }
    ensures { Laid out.old at bytes.now (length bytes.now) out.new result }
{
    let next = at + bytes.len();
    out[at..next].copy_from_slice(bytes);
    next
}

/// Lays bytes down behind their name.
pub fn put_named(out: &mut [u8], at: usize, name: &[u8], bytes: &[u8]) -> usize
    requires { at + (length name.now + length bytes.now) ≤ length out.old }
    ensures { Laid out.old at (name.now ++ bytes.now) (length name.now + length bytes.now) out.new result }
{
    let next = put(out, at, name);
    put(out, next, bytes)
}

/// Lays a number down in decimal.
pub fn put_decimal(out: &mut [u8], at: usize, n: u64) -> usize
    requires { at + 20 ≤ length out.old }
    ensures { Laid out.old at (decimal_of n) 20 out.new result }
{
    let mut digits = [0u8; 20];
    let size = io::decimal(n, &mut digits);
    put(out, at, &digits[..size])
}

/// Lays a number down in decimal, behind its name.
pub fn put_number(out: &mut [u8], at: usize, name: &[u8], n: u64) -> usize
    requires { at + (length name.now + 20) ≤ length out.old }
    ensures { Laid out.old at (name.now ++ decimal_of n) (length name.now + 20) out.new result }
{
    let next = put(out, at, name);
    put_decimal(out, next, n)
}
