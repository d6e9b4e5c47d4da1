// The one state machine, for the reader and the writer: which record may come next, and what it leads to. It is split as document
// 01's order is: what the kind alone decides (module order: 4 after the end, 3, 5, 4), and what the whole record decides (module taking: 4,
// 6, 7, 8).
ghost use Rattle.std.specs.Prelude.{◌≡◌};
ghost use Rattle.stored.specs.Machine.{as_turn, fresh_state, is_ended, kind_of_item, admit_item};

use crate::items::{Item, Sort};
use crate::order::due;
use crate::records::Kind;
use crate::taking::take_turn;
use refusals::Reason;

/// What was read last.
#[derive(Clone, Copy, Debug, PartialEq, Eq)]
pub enum Phase {
    /// Nothing.
    Fresh,
    /// The number of statements.
    Counted,
    /// A statement, not yet its principals.
    Opened,
    /// The principals, or one of their values.
    Principals,
    /// The actions, or one of their values.
    Actions,
    /// The resources, or one of their values.
    Resources,
    /// A condition, or one of its values or networks.
    Conditions,
    /// The end.
    Ended,
}

/// What decides which record may come next.
#[derive(Clone, Copy, Debug, PartialEq, Eq)]
pub struct State {
    /// What was read last.
    pub phase: Phase,
    /// Statements announced.
    pub rows: u8,
    /// Statements still to come.
    pub left: u8,
    /// Values and networks of the statement, together.
    pub values: u8,
    /// Conditions of the statement.
    pub conditions: u8,
    /// The list at hand is still empty.
    pub waiting: bool,
    /// What the list at hand is made of.
    pub sort: Sort,
}

pub(crate) fn fresh() -> State
    ensures { result ≡ fresh_state }
{
    State {
        phase: Phase::Fresh,
        rows: 0,
        left: 0,
        values: 0,
        conditions: 0,
        waiting: false,
        sort: Sort::Text,
    }
}

pub(crate) fn is_ended(phase: Phase) -> bool
    ensures { result ≡ is_ended phase }
{
    phase == Phase::Ended
}

// The kind of an item's record.
pub(crate) fn kind_of_item(item: Item, length: usize) -> Kind
    ensures { result ≡ kind_of_item item length }
{
    match item {
        Item::Start(_) => Kind::Start,
        Item::Statement(_) => Kind::Statement,
        Item::Column(_) => Kind::Column,
        Item::Condition(_, _) => Kind::Condition,
        Item::Network(_, _) => Kind::Network,
        Item::Value => Kind::Value(length),
        Item::End => Kind::End,
    }
}

// The state machine: the next state, or the refusal.
pub(crate) fn admit(state: State, item: Item, bytes: &[u8]) -> Result<State, Reason>
    ensures { as_turn result ≡ admit_item state item bytes.now }
{
    due(state, kind_of_item(item, bytes.len()))?;
    take_turn(state, item, bytes)
}
