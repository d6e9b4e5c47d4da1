// The writer: items one at a time, each refused as the reader would refuse its record at that point, then 1, then 14.
ghost use Rattle.std.specs.Prelude.{◌≡◌, length};
ghost use Rattle.stored.specs.Machine.Turn.{Next};
ghost use Rattle.stored.specs.Writing.{as_written, as_would, fresh_writer, record_of, placing, writing, buffer_after, would_write};

use crate::entries::Entry;
use crate::items::{Item, key_code};
use crate::limits::MOST_BYTES;
use crate::machine::{State, admit, fresh};
use crate::operators::operator_row;
use refusals::{Reason, Refusal};

/// A writer between two items: the state machine's state, and the bytes written so far.
#[derive(Clone, Copy, Debug, PartialEq, Eq)]
pub struct Writer {
    /// The state machine's state.
    pub state: State,
    /// The bytes written so far.
    pub at: usize,
}

/// A writer that has written nothing.
pub fn begin() -> Writer
    ensures { result ≡ fresh_writer }
{
    Writer {
        state: fresh(),
        at: 0,
    }
}

// The length of an item's record.
fn record_length(item: Item, bytes: &[u8]) -> usize
    ensures { result ≡ length (record_of item bytes.now) }
{
    match item {
        Item::Start(_) | Item::Statement(_) | Item::Column(_) => 2,
        Item::Condition(_, _) => 3,
        Item::Network(_, _) => 6,
        Item::Value => bytes.len() + 1,
        Item::End => 1,
    }
}

// Lays the record of an entry down in a room of its length.
fn put_record(room: &mut [u8], entry: Entry)
    requires { length room.old ≡ length (record_of entry.item entry.bytes.now) }
    ensures { room.new ≡ record_of entry.entry.item entry.entry.bytes.now }
{
    match entry.item {
        Item::Start(rows) => room.copy_from_slice(&[0x01, rows]),
        Item::Statement(effect) => room.copy_from_slice(&[0x02, u8::from(effect)]),
        Item::Column(column) => room.copy_from_slice(&[0x03, u8::from(column)]),
        Item::Condition(operator, key) => {
            room.copy_from_slice(&[0x04, operator_row(operator).code, key_code(key)])
        }
        Item::Network(address, prefix) => {
            let [a, b, c, d] = address.to_be_bytes();
            room.copy_from_slice(&[0x06, a, b, c, d, prefix])
        }
        Item::Value => {
            room[0] = (entry.bytes.len() + 0x3F) as u8;
            room[1..].copy_from_slice(entry.bytes)
        }
        Item::End => room.copy_from_slice(&[0x05]),
    }
}

// An item that the state machine takes: 1, then 14, then its record is laid down.
fn place(next: State, at: usize, entry: Entry, buffer: &mut [u8]) -> Result<Writer, Refusal>
    ensures answer { as_written result ≡ placing at (Next next) (length (record_of entry.entry.item entry.entry.bytes.now)) (length buffer.old) }
    ensures laid { buffer.new ≡ buffer_after at (record_of entry.entry.item entry.entry.bytes.now) buffer.old (as_written result) }
{
    let size = record_length(entry.item, entry.bytes);
    if MOST_BYTES < at || MOST_BYTES - at < size {
        return Err(Refusal {
            reason: Reason::TooLong,
            place: MOST_BYTES,
        });
    }
    let end = at + size;
    if buffer.len() < end {
        return Err(Refusal {
            reason: Reason::NoRoom,
            place: 0,
        });
    }
    put_record(&mut buffer[at..end], entry);
    Ok(Writer {
        state: next,
        at: end,
    })
}

/// Writes one item. An accepted item adds its record behind the last and changes no other byte; a refused one changes neither
/// buffer nor state.
pub fn write(writer: Writer, item: Item, bytes: &[u8], buffer: &mut [u8]) -> Result<Writer, Refusal>
    ensures answer { as_written result ≡ writing writer item bytes.now (length buffer.old) }
    ensures laid { buffer.new ≡ buffer_after writer.at (record_of item bytes.now) buffer.old (as_written result) }
{
    match admit(writer.state, item, bytes) {
        Ok(next) => place(next, writer.at, Entry { item, bytes }, buffer),
        Err(reason) => Err(Refusal {
            reason,
            place: writer.at,
        }),
    }
}

/// What an item would lead to: the next state and the length of its record, or the refusal that a writer in this state gives before 1 and 14.
pub fn would_write(state: State, item: Item, bytes: &[u8]) -> Result<(State, usize), Reason>
    ensures { as_would result ≡ would_write state item bytes.now }
{
    let next = admit(state, item, bytes)?;
    Ok((next, record_length(item, bytes)))
}
