// The codes of positions: what the step to a position asks of a byte.
ghost use Rattle.std.specs.Prelude.{◌≡◌};
ghost use Rattle.matching.specs.Symbols.{symbol_of};
ghost use Rattle.matching.specs.Machinery.Codes.{byte_code, symbol_code, takes_byte, takes_symbol};

/// The code of the start of a value.
// stays: fixed lent memory: codes are laid down as words of the workspace, one for each position.
pub const START: u64 = 1;

pub(crate) const BEHIND_STAR: u64 = 2;

/// The code of the position behind a `?`.
pub const BEHIND_ONE: u64 = 3;

pub(crate) const STAR: u8 = b'*';

const ONE: u8 = b'?';

// The code of the position behind a byte, which is compared without its case or exactly.
fn byte_code(fold: bool, b: u8) -> u64
    ensures { result ≡ byte_code fold b }
{
    if fold {
        u64::from(b.to_ascii_lowercase()) * 2 + 5
    } else {
        u64::from(b) * 2 + 4
    }
}

// The code of the position behind a byte of a value in which `*` and `?` are wildcards or plain bytes.
pub(crate) fn symbol_code(wild: bool, fold: bool, b: u8) -> u64
    ensures { result ≡ symbol_code fold (symbol_of wild b) }
{
    match b {
        STAR if wild => BEHIND_STAR,
        ONE if wild => BEHIND_ONE,
        _ => byte_code(fold, b),
    }
}

// Whether the byte b leads to a position behind a byte.
pub(crate) fn takes_byte(code: u64, b: u8) -> bool
    ensures { result ≡ takes_byte code b }
{
    code == byte_code(false, b) || code == byte_code(true, b)
}

// Whether the byte b leads to a position behind a symbol that is no star.
pub(crate) fn takes_symbol(code: u64, b: u8) -> bool
    ensures { result ≡ takes_symbol code b }
{
    code == BEHIND_ONE || takes_byte(code, b)
}
