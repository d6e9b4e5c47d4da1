// The answers of the comparison.
use refusals::Reason;

/// What a refusal speaks of: the comparison of both tables, or one of them.
#[derive(Clone, Copy, Debug, PartialEq, Eq)]
pub enum Side {
    Comparison,
    First,
    Second,
}

// The number of a side: 1 and 2 for the tables, 0 for the comparison.
impl From<Side> for u8 {
    ghost use Rattle.std.specs.Prelude.{◌≡◌};
    ghost use Rattle.comparing.specs.Answers.{table_of};

    ghost from_gives = { λ side number. number ≡ table_of side };

    fn from(side: Side) -> u8 {
        match side {
            Side::Comparison => 0,
            Side::First => 1,
            Side::Second => 2,
        }
    }
}

/// Why a question about two tables is refused, of which of them, and the place.
#[derive(Clone, Copy, Debug, PartialEq, Eq)]
pub struct Refused {
    pub reason: Reason,
    pub table: Side,
    pub place: usize,
}

impl Refused {
    ghost use Rattle.std.specs.Prelude.{◌≡◌};

    // A refusal of both tables together.
    pub(crate) fn together(reason: Reason, place: usize) -> Refused
        ensures { result ≡ record { reason = reason; table = Side.Comparison; place = place } }
    {
        Refused {
            reason,
            table: Side::Comparison,
            place,
        }
    }
}

/// What a shown gap is, beside its bytes: the lengths of the values of columns 0 to 6, and the address. A key that is absent has none.
#[derive(Clone, Copy, Debug, PartialEq, Eq)]
pub struct Shape {
    pub principal: usize,
    pub action: usize,
    pub resource: usize,
    pub vpc: Option<usize>,
    pub prefix: Option<usize>,
    pub vpce: Option<usize>,
    pub referer: Option<usize>,
    pub address: Option<u32>,
}
