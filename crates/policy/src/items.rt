// One wish: the item that it asks for, through stored's state machine, and through its writer.
ghost use Rattle.std.specs.Prelude.{◌≡◌, length};
ghost use Rattle.refusals.specs.Numbers.{number_of};
ghost use Rattle.stored.specs.declared.machine.State.{State};
ghost use Rattle.stored.specs.Writing.{as_would, as_written, buffer_after};
ghost use Rattle.records.specs.Machinery.Cursors.{wish_of};
ghost use Rattle.records.specs.declared.wishes.Wish.TheVariants as W;
ghost use Rattle.policy.specs.Machinery.Asking.{at_most_255, unread_number, Asks, wish_record, wish_would, wish_writing};

use crate::networks::read_network;
use crate::values::copy_string;
use json_text::pieces::advance;
use records::wishes::Wish;
use refusals::{Reason, Refusal};
use stored::items::Item;
use stored::limits::{MOST_LENGTH, MOST_VALUES};
use stored::machine::State;
use stored::writer::{Writer, would_write, write};

// Room for a value and one byte more.
const ROOM: usize = MOST_LENGTH + 1;

// A number of statements in one byte: over 255 they are refused as 255 are.
fn in_byte(count: usize) -> u8
    ensures { result ≡ at_most_255 count }
{
    u8::try_from(count).unwrap_or(u8::MAX)
}

// The refusal of a string that is no network, by its length, which need not be told above 129.
fn unread(state: State, size: usize) -> Reason
    ensures { number_of result ≡ unread_number state.values size }
{
    if size == 0 || MOST_LENGTH < size || MOST_VALUES <= state.values {
        Reason::OverLimit
    } else {
        Reason::Unsound
    }
}

// The network that a string says. An item comes with how many of the bytes beside it are its value's.
fn network_item(
    text: &[u8],
    state: State,
    place: usize,
    bytes: &mut [u8; ROOM],
) -> Result<(Item, usize), Reason>
    ensures { Asks state (wish_of text.now W.Network place) bytes.new result }
{
    let from = advance(text, place, 1);
    match read_network(text, from) {
        Some(network) => Ok((Item::Network(network.address, network.prefix), 0)),
        None => Err(unread(state, copy_string(text, from, bytes))),
    }
}

// The value that a string says. One byte more than a value may have is enough to see that it is too long.
fn value_item(text: &[u8], place: usize, bytes: &mut [u8; ROOM]) -> (Item, usize)
    ensures { (s : State) → Asks s (wish_of text.now W.Value place) bytes.new (Ok result) }
{
    let from = advance(text, place, 1);
    (Item::Value, copy_string(text, from, bytes))
}

// The item that a wish asks for, or its refusal.
fn item_of(
    text: &[u8],
    state: State,
    wish: Wish,
    place: usize,
    bytes: &mut [u8; ROOM],
) -> Result<(Item, usize), Reason>
    ensures { Asks state (wish_of text.now wish place) bytes.new result }
{
    match wish {
        Wish::Start(count) => Ok((Item::Start(in_byte(count)), 0)),
        Wish::Statement(effect) => Ok((Item::Statement(effect), 0)),
        Wish::Strange => Err(Reason::Unknown),
        Wish::Column(column) => Ok((Item::Column(column), 0)),
        Wish::Condition(operator, key) => Ok((Item::Condition(operator, key), 0)),
        Wish::Empty => Err(Reason::EmptyList),
        Wish::Value => Ok(value_item(text, place, bytes)),
        Wish::Network => network_item(text, state, place, bytes),
        Wish::End => Ok((Item::End, 0)),
    }
}

/// What a wish would lead to, and how many bytes its record would take.
pub fn try_wish(
    text: &[u8],
    state: State,
    wish: Wish,
    place: usize,
) -> Result<(State, usize), Reason>
    ensures { as_would result ≡ wish_would state (wish_of text.now wish place) }
{
    let mut bytes = [0u8; ROOM];
    let (item, size) = item_of(text, state, wish, place, &mut bytes)?;
    would_write(state, item, &bytes[..size])
}

/// Writes the record that a wish asks for.
pub fn write_wish(
    text: &[u8],
    writer: Writer,
    wish: Wish,
    place: usize,
    buffer: &mut [u8],
) -> Result<Writer, Refusal>
    ensures answer { as_written result ≡ wish_writing writer (wish_of text.now wish place) (length buffer.old) }
    ensures laid { buffer.new ≡ buffer_after writer.at (wish_record (wish_of text.now wish place)) buffer.old (as_written result) }
{
    let mut bytes = [0u8; ROOM];
    match item_of(text, writer.state, wish, place, &mut bytes) {
        Ok((item, size)) => write(writer, item, &bytes[..size], buffer),
        Err(reason) => {
            let place = writer.at;
            Err(Refusal { reason, place })
        }
    }
}
