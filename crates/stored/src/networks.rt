// What a network may be (RULES 2.6 and 7.1, 8).
ghost use Rattle.std.specs.Prelude.{◌≡◌};
ghost use Rattle.stored.specs.Networks.{network_sound};

// The length is at most 32, and the bits after it are zero: a nonzero address has at least 32 minus length trailing zero bits.
pub(crate) fn is_sound_network(address: u32, length: u8) -> bool
    ensures { result ≡ network_sound address length }
{
    length <= 32 && (address == 0 || 32 - u32::from(length) <= address.trailing_zeros())
}
