// One byte of a JSON text: what it leads to.
ghost use Rattle.std.specs.Prelude.{◌≡◌};
ghost use Rattle.json_text.specs.Choice.{pick};
ghost use Rattle.json_text.specs.Machinery.Machine.{start_state, goes, opened, behind_role, after_step, scalar_step, value_step, element_step, member_step, name_step, colon_step, number_step, text_step, word_step, step_of, at_rest, is_ended};

use crate::bytes::is_blank;
use crate::numbers::{Counted, Numeral, can_end, numeral_step};
use crate::strings::{Inside, Within, inside_step};
use crate::words::{Due, due_byte, due_next};

/// What a string is: a member's name or a value.
#[derive(Clone, Copy, Debug, PartialEq, Eq)]
pub enum Role {
    /// A member's name.
    Name,
    /// A value.
    Content,
}

/// What was read last, and so what is due.
#[derive(Clone, Copy, Debug, PartialEq, Eq)]
pub enum Phase {
    /// At the start, behind a colon, behind a comma in a list: a value.
    Value,
    /// Behind [ : a value or ].
    FirstElement,
    /// Behind { : a name or }.
    FirstMember,
    /// Behind a comma in an object: a name.
    Member,
    /// Behind a name: a colon.
    Colon,
    /// Behind a value: a comma, a closing bracket, or the end.
    After,
    /// Inside a string.
    Text(Role, Inside),
    /// Inside a number.
    Number(Numeral),
    /// Inside a word.
    Word(Due),
}

/// Where the machine stands.
#[derive(Clone, Copy, Debug, PartialEq, Eq)]
pub struct State {
    /// What was read last.
    pub phase: Phase,
    /// The open brackets are its binary digits behind a first 1, the innermost last: 1 for an object, 0 for a list.
    pub stack: u16,
}

/// Nothing is read yet.
pub fn start() -> State
    ensures { result ≡ start_state }
{
    State {
        phase: Phase::Value,
        stack: 1,
    }
}

fn go(phase: Phase, stack: u16) -> Option<State>
    ensures { result ≡ goes phase stack }
{
    Some(State { phase, stack })
}

// A list or an object opens, unless eight are open.
fn open(stack: u16, object: bool, phase: Phase) -> Option<State>
    ensures { result ≡ opened stack (pick object 1 0) phase }
{
    if stack < 256 {
        go(phase, stack * 2 + u16::from(object))
    } else {
        None
    }
}

// Behind a value: a comma or the closing bracket.
fn after_step(stack: u16, byte: u8) -> Option<State>
    ensures { result ≡ after_step stack byte }
{
    if is_blank(byte) {
        go(Phase::After, stack)
    } else if stack == 1 {
        None
    } else if stack % 2 == 1 {
        match byte {
            b',' => go(Phase::Member, stack),
            b'}' => go(Phase::After, stack / 2),
            _ => None,
        }
    } else {
        match byte {
            b',' => go(Phase::Value, stack),
            b']' => go(Phase::After, stack / 2),
            _ => None,
        }
    }
}

fn number_step(stack: u16, numeral: Numeral, byte: u8) -> Option<State>
    ensures { result ≡ number_step stack numeral byte }
{
    match numeral_step(numeral, byte) {
        Counted::Goes(next) => go(Phase::Number(next), stack),
        Counted::Ends => after_step(stack, byte),
        Counted::Fails => None,
    }
}

// A value that is neither a string nor a bracket.
fn scalar_step(stack: u16, byte: u8) -> Option<State>
    ensures { result ≡ scalar_step stack byte }
{
    match byte {
        b't' => go(Phase::Word(Due::Rue), stack),
        b'f' => go(Phase::Word(Due::Alse), stack),
        b'n' => go(Phase::Word(Due::Ull), stack),
        b'-' => go(Phase::Number(Numeral::Minus), stack),
        _ => number_step(stack, Numeral::Minus, byte),
    }
}

fn value_step(stack: u16, byte: u8) -> Option<State>
    ensures { result ≡ value_step stack byte }
{
    match byte {
        _ if is_blank(byte) => go(Phase::Value, stack),
        b'"' => go(Phase::Text(Role::Content, Inside::Plain), stack),
        b'[' => open(stack, false, Phase::FirstElement),
        b'{' => open(stack, true, Phase::FirstMember),
        _ => scalar_step(stack, byte),
    }
}

fn element_step(stack: u16, byte: u8) -> Option<State>
    ensures { result ≡ element_step stack byte }
{
    match byte {
        _ if is_blank(byte) => go(Phase::FirstElement, stack),
        b']' => go(Phase::After, stack / 2),
        _ => value_step(stack, byte),
    }
}

fn name_step(stack: u16, byte: u8) -> Option<State>
    ensures { result ≡ name_step stack byte }
{
    match byte {
        _ if is_blank(byte) => go(Phase::Member, stack),
        b'"' => go(Phase::Text(Role::Name, Inside::Plain), stack),
        _ => None,
    }
}

fn member_step(stack: u16, byte: u8) -> Option<State>
    ensures { result ≡ member_step stack byte }
{
    match byte {
        _ if is_blank(byte) => go(Phase::FirstMember, stack),
        b'}' => go(Phase::After, stack / 2),
        _ => name_step(stack, byte),
    }
}

fn colon_step(stack: u16, byte: u8) -> Option<State>
    ensures { result ≡ colon_step stack byte }
{
    match byte {
        _ if is_blank(byte) => go(Phase::Colon, stack),
        b':' => go(Phase::Value, stack),
        _ => None,
    }
}

fn behind_role(role: Role) -> Phase
    ensures { result ≡ behind_role role }
{
    match role {
        Role::Name => Phase::Colon,
        Role::Content => Phase::After,
    }
}

fn text_step(stack: u16, role: Role, inside: Inside, byte: u8) -> Option<State>
    ensures { result ≡ text_step stack role inside byte }
{
    match inside_step(inside, byte) {
        Within::Goes(next) => go(Phase::Text(role, next), stack),
        Within::Closes => go(behind_role(role), stack),
        Within::Fails => None,
    }
}

fn word_step(stack: u16, due: Due, byte: u8) -> Option<State>
    ensures { result ≡ word_step stack due byte }
{
    if byte != due_byte(due) {
        return None;
    }
    match due_next(due) {
        Some(next) => go(Phase::Word(next), stack),
        None => go(Phase::After, stack),
    }
}

/// One byte: what it leads to, if it may come there.
#[tactic(auto, unfolding(crate::specs::Machinery::Machine::step_of))]
pub fn step(state: State, byte: u8) -> Option<State>
    ensures { result ≡ step_of state byte }
{
    let State { phase, stack } = state;
    match phase {
        Phase::Value => value_step(stack, byte),
        Phase::FirstElement => element_step(stack, byte),
        Phase::FirstMember => member_step(stack, byte),
        Phase::Member => name_step(stack, byte),
        Phase::Colon => colon_step(stack, byte),
        Phase::After => after_step(stack, byte),
        Phase::Text(role, inside) => text_step(stack, role, inside, byte),
        Phase::Number(numeral) => number_step(stack, numeral, byte),
        Phase::Word(due) => word_step(stack, due, byte),
    }
}

// The value at hand may be over.
fn at_rest(phase: Phase) -> bool
    ensures { result ≡ at_rest phase }
{
    match phase {
        Phase::After => true,
        Phase::Number(numeral) => can_end(numeral),
        _ => false,
    }
}

/// The text may end here.
#[tactic(auto, unfolding(crate::specs::Machinery::Machine::is_ended))]
pub fn is_ended(state: State) -> bool
    ensures { result ≡ is_ended state }
{
    at_rest(state.phase) && state.stack == 1
}
