// How the bytes of a value are read.
ghost use Rattle.std.specs.Prelude.{◌≡◌};
ghost use Rattle.matching.specs.Symbols.{ignores_case};

/// Fold: an action. Plain: a resource, StringLike, StringNotLike. Literal: StringEquals, StringNotEquals. Principal: `*` alone is
/// everyone, any other value is literal.
#[derive(Clone, Copy, Debug, PartialEq, Eq)]
pub enum Reading {
    Fold,
    Plain,
    Literal,
    Principal,
}

// Whether the case of ASCII letters is ignored.
pub(crate) fn ignores_case(reading: Reading) -> bool
    ensures { result ≡ ignores_case reading }
{
    matches!(reading, Reading::Fold)
}
