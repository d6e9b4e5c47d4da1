// Two tables that travel together, with what is known of them.
ghost use Rattle.std.specs.Prelude.{◌≡◌};
ghost use Rattle.columns.specs.Machinery.Both.{BothRead};
ghost use Rattle.columns.specs.Machinery.ReadOnce.{BothRead-prop};

/// Two tables that were read, and the number of rows of the first.
#[derive(Clone, Copy, Debug)]
pub struct Tables<'a> {
    pub first: &'a [u8],
    pub second: &'a [u8],
    /// The rows of the first, behind which those of the second come in a footprint.
    pub size: u64,
    pub ghost both_read: { BothRead first.now second.now size } by { BothRead-prop first.now second.now size },
}

impl<'a> Tables<'a> {
    /// Tables that were read, the first with so many rows.
    pub fn new(first: &'a [u8], second: &'a [u8], size: u64) -> Self
        requires { BothRead first.now second.now size }
        ensures first { result.first ≡ first.entry }
        ensures second { result.second ≡ second.entry }
        ensures size { result.size ≡ size }
    {
        Tables {
            first,
            second,
            size,
        }
    }
}
