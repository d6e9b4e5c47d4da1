// The verdicts of both tables on a set of rows: whether the first allows by its rows, and the second does not.
ghost use Rattle.std.specs.Prelude.{◌≤◌};

/// The number of rows of the first table, its allow rows, and the second table's allow rows.
#[derive(Clone, Copy)]
pub struct Sides {
    pub size: u64,
    pub allow: u64,
    pub other: u64,
    pub ghost few: { size ≤ 32 },
}

impl Sides {
    ghost use Rattle.std.specs.Prelude.{◌≡◌, ◌*◌, ◌%◌, ◌^◌};
    ghost use Rattle.judging.specs.Machinery.Rows.{bit_of};
    ghost use Rattle.comparing.specs.Machinery.Kinds.{allowed_rows, is_gap_rows, is_settled};

    // The first table's rows among the rows of both.
    fn first_rows(self, rows: u64) -> u64
        ensures { result ≡ rows % 2 ^ self.size }
    {
        rows % (1u64 << self.size)
    }

    // All rows that apply allow, and there are some.
    fn is_allowed(rows: u64, allow: u64) -> bool
        ensures { result ≡ allowed_rows rows allow }
    {
        rows & allow == rows && rows != 0
    }

    // The first table allows by its rows, and the second does not by its own. The one place that decides which kinds are listed.
    fn is_gap(self, rows: u64) -> bool
        ensures { result ≡ is_gap_rows self rows }
    {
        Sides::is_allowed(self.first_rows(rows), self.allow)
            && !Sides::is_allowed(rows >> self.size, self.other)
    }

    // No column ahead can change the verdict: no allow row of the first table is left, or all that are left are in every footprint ahead.
    pub(crate) fn is_settled(self, meet: u64, rows: u64) -> bool
        ensures { result ≡ is_settled self meet rows }
    {
        self.first_rows(rows) & self.allow == 0 || rows & meet == rows
    }

    // The gaps among so many kinds that all have these rows.
    pub(crate) fn settled(self, rows: u64, kinds: u64) -> u64
        ensures { result ≡ kinds * bit_of (is_gap_rows self rows) }
    {
        if self.is_gap(rows) { kinds } else { 0 }
    }
}
