// What a byte begins or ends, in a text that has no fault.
ghost use Rattle.std.specs.Prelude.{◌≡◌};
ghost use Rattle.json_text.specs.Machinery.Events.{value_event, element_event, member_event, close_event, event_of};

use crate::bytes::is_blank;
use crate::machine::Phase;

/// What a byte begins or ends.
#[derive(Clone, Copy, Debug, PartialEq, Eq)]
pub enum Event {
    /// A string begins: a member's name.
    Name,
    /// A string begins: a value.
    Text,
    /// A number or a word begins.
    Other,
    /// A list begins.
    OpenList,
    /// A list ends.
    CloseList,
    /// An object begins.
    OpenObject,
    /// An object ends.
    CloseObject,
}

fn value_event(byte: u8) -> Option<Event>
    ensures { result ≡ value_event byte }
{
    match byte {
        _ if is_blank(byte) => None,
        b'"' => Some(Event::Text),
        b'[' => Some(Event::OpenList),
        b'{' => Some(Event::OpenObject),
        _ => Some(Event::Other),
    }
}

fn element_event(byte: u8) -> Option<Event>
    ensures { result ≡ element_event byte }
{
    match byte {
        b']' => Some(Event::CloseList),
        _ => value_event(byte),
    }
}

fn member_event(byte: u8) -> Option<Event>
    ensures { result ≡ member_event byte }
{
    match byte {
        b'"' => Some(Event::Name),
        b'}' => Some(Event::CloseObject),
        _ => None,
    }
}

fn close_event(byte: u8) -> Option<Event>
    ensures { result ≡ close_event byte }
{
    match byte {
        b']' => Some(Event::CloseList),
        b'}' => Some(Event::CloseObject),
        _ => None,
    }
}

/// What a byte begins or ends in a phase, if anything.
pub fn event_of(phase: Phase, byte: u8) -> Option<Event>
    ensures { result ≡ event_of phase byte }
{
    match phase {
        Phase::Value => value_event(byte),
        Phase::FirstElement => element_event(byte),
        Phase::FirstMember | Phase::Member => member_event(byte),
        Phase::After | Phase::Number(_) => close_event(byte),
        Phase::Colon | Phase::Text(_, _) | Phase::Word(_) => None,
    }
}
