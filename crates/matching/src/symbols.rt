// The symbols of a value, read one after the other. Nobody else looks at the bytes of a value.
ghost use Rattle.std.specs.Prelude.{◌≡◌, ◌==◌, [], ◌∷◌, MatchOption, length};
ghost use Rattle.matching.specs.Symbols.{is_wild};
ghost use Rattle.matching.specs.Machinery.Codes.{symbol_codes};
ghost use Rattle.matching.specs.Machinery.SymbolsLeft.{symbols_left};

use crate::codes::{STAR, symbol_code};
use crate::reading::{Reading, ignores_case};

/// The codes of the symbols of a value, one after the other.
#[derive(Clone, Copy, Debug)]
pub struct Symbols<'a> {
    bytes: &'a [u8],
    wild: bool,
    fold: bool,
}

// Whether `*` and `?` are wildcards in the value.
fn is_wild(value: &[u8], reading: Reading) -> bool
    ensures { result ≡ is_wild reading value.now }
{
    match reading {
        Reading::Fold | Reading::Plain => true,
        Reading::Literal => false,
        Reading::Principal => matches!(value, [STAR]),
    }
}

/// All symbols of a value.
pub fn symbols_of(value: &[u8], reading: Reading) -> Symbols
    ensures { symbols_left result ≡ symbol_codes reading value.now }
{
    Symbols {
        bytes: value,
        wild: is_wild(value, reading),
        fold: ignores_case(reading),
    }
}

impl<'a> Symbols<'a> {
    // How many symbols are left.
    #[inline(always)]
    pub(crate) fn len(&self) -> usize
        ensures { result ≡ length (symbols_left self.now) }
    {
        self.bytes.len()
    }

    // None is left.
    #[inline(always)]
    pub(crate) fn is_empty(&self) -> bool
        ensures { result ≡ (length (symbols_left self.now) == 0) }
    {
        self.len() == 0
    }

    // The code of the first symbol and the symbols behind it, if one is left.
    #[inline(always)]
    pub(crate) fn split_first(self) -> Option<(u64, Symbols<'a>)>
        ensures { MatchOption result (symbols_left self.entry ≡ []) (λ found. symbols_left self.entry ≡ found.0 ∷ symbols_left found.1) }
    {
        let (first, others) = self.bytes.split_first()?;
        let code = symbol_code(self.wild, self.fold, *first);
        Some((
            code,
            Symbols {
                bytes: others,
                ..self
            },
        ))
    }
}

impl<'a> Iterator for Symbols<'a> {
    ghost use Rattle.std.specs.Iterator.{YieldsFirst, item_count};

    type Item = u64;

    ghost next_gives = { YieldsFirst symbols_left };

    ghost remaining = { item_count symbols_left };

    #[inline(always)]
    fn next(&mut self) -> Option<u64> {
        let (code, behind) = self.split_first()?;
        *self = behind;
        Some(code)
    }
}
