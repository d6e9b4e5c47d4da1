// Inside true, false and null, letter by letter.
ghost use Rattle.std.specs.Prelude.{◌≡◌};
ghost use Rattle.json_text.specs.Machinery.Words.{due_byte, due_next};

/// The letters that are due.
#[derive(Clone, Copy, Debug, PartialEq, Eq)]
pub enum Due {
    /// The last three of true.
    Rue,
    /// The last two of true.
    Ue,
    /// The last of true and of false.
    E,
    /// The last four of false.
    Alse,
    /// The last three of false.
    Lse,
    /// The last two of false.
    Se,
    /// The last three of null.
    Ull,
    /// The last two of null.
    Ll,
    /// The last of null.
    L,
}

// The first of the letters that are due.
pub(crate) fn due_byte(due: Due) -> u8
    ensures { result ≡ due_byte due }
{
    match due {
        Due::Rue => b'r',
        Due::Ue => b'u',
        Due::E => b'e',
        Due::Alse => b'a',
        Due::Lse => b'l',
        Due::Se => b's',
        Due::Ull => b'u',
        Due::Ll => b'l',
        Due::L => b'l',
    }
}

// What is due behind it, if the word is not whole.
pub(crate) fn due_next(due: Due) -> Option<Due>
    ensures { result ≡ due_next due }
{
    match due {
        Due::Rue => Some(Due::Ue),
        Due::Ue => Some(Due::E),
        Due::E => None,
        Due::Alse => Some(Due::Lse),
        Due::Lse => Some(Due::Se),
        Due::Se => Some(Due::E),
        Due::Ull => Some(Due::Ll),
        Due::Ll => Some(Due::L),
        Due::L => None,
    }
}
