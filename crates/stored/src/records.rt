// One record: its kind, the size of its body, what the body says, and the record at a place of a table.
ghost use Rattle.std.specs.Prelude.{◌≡◌, ◌≤◌, length, get_or};
ghost use Rattle.stored.specs.Records.{as_record, kind_of, size_of, statement_of, column_of, condition_of, network_of, decode_of, record_behind, record_at};

use crate::items::{Column, Effect, Item, key_of};
use crate::operators::operator_of;
use refusals::Reason;

/// The kinds of records, and what is none.
#[derive(Clone, Copy, Debug, PartialEq, Eq)]
pub enum Kind {
    Start,
    Statement,
    Column,
    Condition,
    End,
    Network,
    /// A value of so many bytes.
    Value(usize),
    /// A byte that stands for no kind.
    Unknown,
}

/// The record at a place: its item, where its body starts and how long that is (the next record is behind it).
#[derive(Clone, Copy, Debug, PartialEq, Eq)]
pub struct Record {
    /// What it says.
    pub item: Item,
    /// Where its body starts.
    pub start: usize,
    /// How long its body is.
    pub size: usize,
}

/// Why no record is at a place.
#[derive(Clone, Copy, Debug, PartialEq, Eq)]
pub enum RecordFault {
    /// The bytes end inside it or before it.
    Cut,
    /// Its kind or one of its codes is unknown.
    Strange,
}

/// The reason of a refusal at such a place.
impl From<RecordFault> for Reason {
    ghost use Rattle.std.specs.Prelude.{◌≡◌};
    ghost use Rattle.stored.specs.Records.{reason_of};

    ghost from_gives = { λ fault reason. reason ≡ reason_of fault };

    fn from(fault: RecordFault) -> Reason {
        match fault {
            RecordFault::Cut => Reason::Cut,
            RecordFault::Strange => Reason::Unknown,
        }
    }
}

/// The byte at an index, 0 past the end.
pub fn byte_at(bytes: &[u8], i: usize) -> u8
    ensures { result ≡ get_or bytes.now i 0 }
{
    bytes.get(i).copied().unwrap_or(0)
}

/// The kind that a byte stands for.
pub fn kind_of(byte: u8) -> Kind
    ensures { result ≡ kind_of byte }
{
    match byte {
        0x01 => Kind::Start,
        0x02 => Kind::Statement,
        0x03 => Kind::Column,
        0x04 => Kind::Condition,
        0x05 => Kind::End,
        0x06 => Kind::Network,
        0x40..=0xBF => Kind::Value(usize::from(byte - 0x3F)),
        _ => Kind::Unknown,
    }
}

/// The size of the body that a kind has.
pub fn size_of(kind: Kind) -> usize
    ensures { result ≡ size_of kind }
{
    match kind {
        Kind::Start | Kind::Statement | Kind::Column => 1,
        Kind::Condition => 2,
        Kind::Network => 5,
        Kind::Value(length) => length,
        Kind::End | Kind::Unknown => 0,
    }
}

// What the body of a statement's record says.
fn statement_of(code: u8) -> Option<Item>
    ensures { result ≡ statement_of code }
{
    match code {
        0 => Some(Item::Statement(Effect::Deny)),
        1 => Some(Item::Statement(Effect::Allow)),
        _ => None,
    }
}

// What the body of a column's record says.
fn column_of(code: u8) -> Option<Item>
    ensures { result ≡ column_of code }
{
    match code {
        0x00 => Some(Item::Column(Column::Principal)),
        0x01 => Some(Item::Column(Column::Action)),
        0x02 => Some(Item::Column(Column::Resource)),
        0x10 => Some(Item::Column(Column::NotPrincipal)),
        0x11 => Some(Item::Column(Column::NotAction)),
        0x12 => Some(Item::Column(Column::NotResource)),
        _ => None,
    }
}

// What the body of a condition's record says.
fn condition_of(operator: u8, key: u8) -> Option<Item>
    ensures { result ≡ condition_of operator key }
{
    Some(Item::Condition(operator_of(operator)?, key_of(key)?))
}

// What the body of a network's record says: the address, high byte first, and the prefix length.
fn network_of(a: u8, b: u8, c: u8, d: u8, length: u8) -> Item
    ensures { result ≡ network_of a b c d length }
{
    Item::Network(u32::from_be_bytes([a, b, c, d]), length)
}

// What the body of a kind says.
#[inline(always)]
fn decode(kind: Kind, body: &[u8]) -> Option<Item>
    ensures { result ≡ decode_of kind body.now }
{
    match kind {
        Kind::Start => Some(Item::Start(byte_at(body, 0))),
        Kind::Statement => statement_of(byte_at(body, 0)),
        Kind::Column => column_of(byte_at(body, 0)),
        Kind::Condition => condition_of(byte_at(body, 0), byte_at(body, 1)),
        Kind::End => Some(Item::End),
        Kind::Network => Some(network_of(
            byte_at(body, 0),
            byte_at(body, 1),
            byte_at(body, 2),
            byte_at(body, 3),
            byte_at(body, 4),
        )),
        Kind::Value(_) => Some(Item::Value),
        Kind::Unknown => None,
    }
}

// The record whose kind is known and whose body starts at a place.
#[inline(always)]
fn record_behind(table: &[u8], start: usize, kind: Kind) -> Result<Record, RecordFault>
    requires { start ≤ length table.now }
    ensures { as_record result ≡ record_behind table.now start kind }
{
    let size = size_of(kind);
    if table.len() - start < size {
        return Err(RecordFault::Cut);
    }
    let end = start + size;
    let item = decode(kind, &table[start..end]).ok_or(RecordFault::Strange)?;
    Ok(Record { item, start, size })
}

/// The record at a place of any byte string.
#[tactic(auto, unfolding(crate::specs::Records::record_at))]
#[inline(always)]
pub fn record_at(table: &[u8], at: usize) -> Result<Record, RecordFault>
    ensures { as_record result ≡ record_at table.now at }
{
    if at < table.len() {
        record_behind(table, at + 1, kind_of(table[at]))
    } else {
        Err(RecordFault::Cut)
    }
}
