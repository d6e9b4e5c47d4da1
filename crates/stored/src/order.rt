// What the kind of a record decides alone (RULES 7.1: 4 after the end, 3, 5, 4).
ghost use Rattle.std.specs.Prelude.{◌≡◌};
ghost use Rattle.stored.specs.Machine.{as_fault, is_content, next_row, takes_kind, due_of};

use crate::machine::{Phase, State, is_ended};
use crate::records::Kind;
use refusals::Reason;

// A value or a network.
fn is_content(kind: Kind) -> bool
    ensures { result ≡ is_content kind }
{
    matches!(kind, Kind::Network | Kind::Value(_))
}

// Between statements: another one while some are left, the end when none is.
fn is_next_row(left: u8, kind: Kind) -> bool
    ensures { result ≡ next_row left kind }
{
    match kind {
        Kind::Statement => 0 < left,
        Kind::End => left == 0,
        _ => false,
    }
}

// The record order and the announced count leave a place for the kind.
fn is_in_turn(phase: Phase, left: u8, kind: Kind) -> bool
    ensures { result ≡ takes_kind phase left kind }
{
    match phase {
        Phase::Fresh => kind == Kind::Start,
        Phase::Counted => is_next_row(left, kind),
        Phase::Opened => kind == Kind::Column,
        Phase::Principals | Phase::Actions => is_content(kind) || kind == Kind::Column,
        Phase::Resources | Phase::Conditions => {
            is_content(kind) || kind == Kind::Condition || is_next_row(left, kind)
        }
        Phase::Ended => false,
    }
}

// The refusal that the kind alone decides.
pub(crate) fn due(state: State, kind: Kind) -> Result<(), Reason>
    ensures { as_fault result ≡ due_of state kind }
{
    if is_ended(state.phase) {
        Err(Reason::OutOfTurn)
    } else if kind == Kind::Unknown {
        Err(Reason::Unknown)
    } else if state.waiting && !is_content(kind) {
        Err(Reason::EmptyList)
    } else if is_in_turn(state.phase, state.left, kind) {
        Ok(())
    } else {
        Err(Reason::OutOfTurn)
    }
}
