// Why a table, an item, a request, a comparison or a policy is refused, and where (RULES 7).

#![tactic(auto)]

/// A reason for a refusal.
#[derive(Clone, Copy, Debug, PartialEq, Eq)]
pub enum Reason {
    /// The bytes of the table pass their limit.
    TooLong,
    /// The bytes end inside a record, or where one is due.
    Cut,
    /// A kind, an effect or another code that is none.
    Unknown,
    /// A record for which order or announced number leave no place.
    OutOfTurn,
    /// A list that ends without a value.
    EmptyList,
    /// Too many statements, values, networks or conditions, or a value of a wrong length.
    OverLimit,
    /// A byte of a value that no value may have.
    OutOfRange,
    /// A value, a network or a condition that may not stand there.
    Unsound,
    /// A column of a request that is empty or has a byte that no string may have.
    FaultyRequest,
    /// Two tables with too many positions or networks in a column.
    TooWide,
    /// Two tables whose strings have too many states in a column.
    Crowded,
    /// Two tables that tell too many kinds of request apart.
    TooManyKinds,
    /// A gap that is none of those that there are.
    NoSuchGap,
    /// A lent buffer that is too short.
    NoRoom,
    /// A text that is not JSON as decided.
    NotJson,
    /// A member, an operator or a key that is unknown or there twice.
    WrongName,
    /// A value of a wrong type, or a member that is missing.
    WrongForm,
}

/// The number of a reason, as RULES 7 gives it.
impl From<Reason> for u8 {
    ghost use Rattle.std.specs.Prelude.{◌≡◌};
    ghost use Rattle.refusals.specs.Numbers.{number_of};

    ghost from_gives = { λ reason number. number ≡ number_of reason };

    fn from(reason: Reason) -> u8 {
        match reason {
            Reason::TooLong => 1,
            Reason::Cut => 2,
            Reason::Unknown => 3,
            Reason::OutOfTurn => 4,
            Reason::EmptyList => 5,
            Reason::OverLimit => 6,
            Reason::OutOfRange => 7,
            Reason::Unsound => 8,
            Reason::FaultyRequest => 9,
            Reason::TooWide => 10,
            Reason::Crowded => 11,
            Reason::TooManyKinds => 12,
            Reason::NoSuchGap => 13,
            Reason::NoRoom => 14,
            Reason::NotJson => 20,
            Reason::WrongName => 21,
            Reason::WrongForm => 22,
        }
    }
}

/// A refusal: the reason, and a place, which is a byte of the table or of the text, or a column.
#[derive(Clone, Copy, Debug, PartialEq, Eq)]
pub struct Refusal {
    pub reason: Reason,
    pub place: usize,
}
