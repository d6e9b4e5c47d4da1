// What a whole record decides, once its kind is in turn (RULES 7.1: 4 for a column, 6, 7, 8), and the state behind it.
ghost use Rattle.std.specs.Prelude.{◌≡◌, eqb};
ghost use Rattle.stored.specs.Items.{column_place};
ghost use Rattle.stored.specs.Machine.{as_fault, as_turn, column_phase, place_due, counted_state, opened_state, listed_state, filled_state, ended_state, sound_in, value_fault, start_turn, column_turn, condition_turn, network_turn, value_turn, turn_of};

use crate::items::{Column, Item, Key, Operator, Sort, key_sort};
use crate::limits::{MOST_CONDITIONS, MOST_LENGTH, MOST_STATEMENTS, MOST_VALUES};
use crate::machine::{Phase, State, fresh};
use crate::networks::is_sound_network;
use crate::operators::operator_row;
use crate::values::{has_variable, has_wildcard, is_in_range, is_star_alone};
use refusals::Reason;

// The list that a column opens.
fn column_phase(column: Column) -> Phase
    ensures { result ≡ column_phase column }
{
    match column {
        Column::Principal | Column::NotPrincipal => Phase::Principals,
        Column::Action | Column::NotAction => Phase::Actions,
        Column::Resource | Column::NotResource => Phase::Resources,
    }
}

// A column comes next in a statement: the principals behind its beginning, then the actions, then the resources.
fn is_due(phase: Phase, column: Column) -> bool
    ensures { result ≡ eqb (place_due phase) (column_place column) }
{
    match column {
        Column::Principal | Column::NotPrincipal => phase == Phase::Opened,
        Column::Action | Column::NotAction => phase == Phase::Principals,
        Column::Resource | Column::NotResource => phase == Phase::Actions,
    }
}

// The number of statements was read.
fn counted(rows: u8) -> State
    ensures { result ≡ counted_state rows }
{
    State {
        phase: Phase::Counted,
        rows,
        left: rows,
        ..fresh()
    }
}

// A statement begins.
fn opened(state: State) -> State
    ensures { result ≡ opened_state state }
{
    State {
        phase: Phase::Opened,
        rows: state.rows,
        left: state.left.saturating_sub(1),
        ..fresh()
    }
}

// A list opens.
fn listed(state: State, phase: Phase, conditions: u8, sort: Sort) -> State
    ensures { result ≡ listed_state state phase conditions sort }
{
    State {
        phase,
        conditions,
        waiting: true,
        sort,
        ..state
    }
}

// The list at hand has one element more.
fn filled(state: State, values: u8) -> State
    ensures { result ≡ filled_state state values }
{
    State {
        values,
        waiting: false,
        ..state
    }
}

// The table is at its end.
fn ended(state: State) -> State
    ensures { result ≡ ended_state state }
{
    State {
        phase: Phase::Ended,
        ..state
    }
}

// A principal is `*` alone, or has neither `*` nor `?`; other values may.
fn is_sound_in(phase: Phase, bytes: &[u8]) -> bool
    ensures { result ≡ sound_in phase bytes.now }
{
    phase != Phase::Principals || is_star_alone(bytes) || !has_wildcard(bytes)
}

// What is wrong with a value by itself in a list: its length, a byte, or what it says there, in this order.
fn value_fault(phase: Phase, sort: Sort, bytes: &[u8]) -> Result<(), Reason>
    ensures { as_fault result ≡ value_fault phase sort bytes.now }
{
    if bytes.is_empty() || MOST_LENGTH < bytes.len() {
        Err(Reason::OverLimit)
    } else if !is_in_range(bytes) {
        Err(Reason::OutOfRange)
    } else if sort == Sort::Text && !has_variable(bytes) && is_sound_in(phase, bytes) {
        Ok(())
    } else {
        Err(Reason::Unsound)
    }
}

fn start_turn(rows: u8) -> Result<State, Reason>
    ensures { as_turn result ≡ start_turn rows }
{
    if MOST_STATEMENTS < rows {
        return Err(Reason::OverLimit);
    }
    Ok(counted(rows))
}

fn column_turn(state: State, column: Column) -> Result<State, Reason>
    ensures { as_turn result ≡ column_turn state column }
{
    if !is_due(state.phase, column) {
        return Err(Reason::OutOfTurn);
    }
    Ok(listed(state, column_phase(column), state.conditions, Sort::Text))
}

fn condition_turn(state: State, operator: Operator, key: Key) -> Result<State, Reason>
    ensures { as_turn result ≡ condition_turn state operator key }
{
    if MOST_CONDITIONS <= state.conditions {
        return Err(Reason::OverLimit);
    }
    let sort = operator_row(operator).sort;
    if sort != key_sort(key) {
        return Err(Reason::Unsound);
    }
    Ok(listed(state, Phase::Conditions, state.conditions + 1, sort))
}

fn network_turn(state: State, address: u32, length: u8) -> Result<State, Reason>
    ensures { as_turn result ≡ network_turn state address length }
{
    if MOST_VALUES <= state.values {
        Err(Reason::OverLimit)
    } else if state.sort == Sort::Address && is_sound_network(address, length) {
        Ok(filled(state, state.values + 1))
    } else {
        Err(Reason::Unsound)
    }
}

fn value_turn(state: State, bytes: &[u8]) -> Result<State, Reason>
    ensures { as_turn result ≡ value_turn state bytes.now }
{
    if MOST_VALUES <= state.values {
        return Err(Reason::OverLimit);
    }
    value_fault(state.phase, state.sort, bytes)?;
    Ok(filled(state, state.values + 1))
}

// What a whole record decides, once its kind is in turn: a refusal for a column, a limit, a byte or what may not stand there, or the next state.
pub(crate) fn take_turn(state: State, item: Item, bytes: &[u8]) -> Result<State, Reason>
    ensures { as_turn result ≡ turn_of state item bytes.now }
{
    match item {
        Item::Start(rows) => start_turn(rows),
        Item::Statement(_) => Ok(opened(state)),
        Item::Column(column) => column_turn(state, column),
        Item::Condition(operator, key) => condition_turn(state, operator, key),
        Item::Network(address, length) => network_turn(state, address, length),
        Item::Value => value_turn(state, bytes),
        Item::End => Ok(ended(state)),
    }
}
