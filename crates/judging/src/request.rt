// A request: what its columns hold, which of its keys are there, and the lowest column that refusal 9 is given for.

use matching::network::in_network;
use matching::reading::Reading;
use matching::value::value_matches;
use stored::values::is_in_range;

/// The number of columns, which is also a column that no list speaks of.
// stays: no plainer: RULES 1 numbers the columns, a refusal says the number, and the comparison goes through them by it.
pub const COLUMNS: usize = 8;

// Columns 0 to 2 are needed, the keys behind them are not.
const KEYS: usize = 3;

/// What a column of a request holds.
#[derive(Clone, Copy, Debug, PartialEq, Eq)]
pub enum Value<'a> {
    /// The key is not there.
    Absent,
    /// The bytes of a string.
    Text(&'a [u8]),
    /// An address.
    Number(u32),
}

impl<'a> Value<'a> {
    ghost use Rattle.std.specs.Prelude.{◌≡◌, ◌≤◌, length};
    ghost use Rattle.stored.specs.Tables.{Listed};
    ghost use Rattle.judging.specs.Requests.{is_present, is_faulty, key_of, address_of, value_of};
    ghost use Rattle.judging.specs.Meaning.{listed_matches};

    fn of_key(key: Option<&'a [u8]>) -> Value<'a>
        ensures { value_of result ≡ key_of key.entry }
    {
        key.map_or(Value::Absent, Value::Text)
    }

    fn of_address(address: Option<u32>) -> Value<'a>
        ensures { value_of result ≡ address_of address }
    {
        // stays: tried and the proof does not close: the borrow checker does not cover `map_or` where the result's lifetime is in no argument.
        match address {
            Some(number) => Value::Number(number),
            None => Value::Absent,
        }
    }

    pub(crate) fn is_present(self) -> bool
        ensures { result ≡ is_present (value_of self.entry) }
    {
        !matches!(self, Value::Absent)
    }

    // A listed value matches it.
    pub(crate) fn matches(self, reading: Reading, value: &[u8]) -> bool
        requires { length value.now ≤ 511 }
        ensures { result ≡ listed_matches reading (value_of self.entry) (Listed.text value.now) }
    {
        match self {
            Value::Text(string) => value_matches(value, reading, string),
            Value::Absent | Value::Number(_) => false,
        }
    }

    // A listed network holds for it, however the values beside it are read.
    pub(crate) fn lies_in(self, network: u32, length: u8) -> bool
        ensures { (reading : Reading) → result ≡ listed_matches reading (value_of self.entry) (Listed.range network length) }
    {
        match self {
            Value::Number(address) => in_network(address, network, length),
            Value::Absent | Value::Text(_) => false,
        }
    }

    // Columns 0 to 2 hold one byte or more; each byte lies in 21 to 7E hex.
    fn is_faulty(self, column: usize) -> bool
        ensures { result ≡ is_faulty column (value_of self.entry) }
    {
        match self {
            Value::Text(string) => (column < KEYS && string.is_empty()) || !is_in_range(string),
            Value::Absent | Value::Number(_) => column < KEYS,
        }
    }
}

/// A request: a key that is not there is `None`.
#[derive(Clone, Copy, Debug, PartialEq, Eq)]
pub struct Request<'a> {
    pub principal: &'a [u8],
    pub action: &'a [u8],
    pub resource: &'a [u8],
    pub vpc: Option<&'a [u8]>,
    pub prefix: Option<&'a [u8]>,
    pub vpce: Option<&'a [u8]>,
    pub referer: Option<&'a [u8]>,
    pub address: Option<u32>,
}

impl<'a> Request<'a> {
    ghost use Rattle.std.specs.Prelude.{◌≡◌};
    ghost use Rattle.judging.specs.Requests.{column_of, columns_of, first_fault, value_of};
    ghost use Rattle.judging.specs.Machinery.Faults.{fault_of};

    // What a column holds.
    pub(crate) fn value(&self, column: usize) -> Value<'a>
        ensures { value_of result ≡ column_of (columns_of self.now) column }
    {
        match column {
            0 => Value::Text(self.principal),
            1 => Value::Text(self.action),
            2 => Value::Text(self.resource),
            3 => Value::of_key(self.vpc),
            4 => Value::of_key(self.prefix),
            5 => Value::of_key(self.vpce),
            6 => Value::of_key(self.referer),
            7 => Value::of_address(self.address),
            _ => Value::Absent,
        }
    }

    // The lowest faulty column.
    pub(crate) fn first_fault(&self) -> Option<usize>
        ensures { result ≡ fault_of (first_fault 0 (columns_of self.now)) }
    {
        // stays: tried and the proof does not close: with `find` over the columns `search` gives up on what is ensured.
        for column in 0..COLUMNS {
            if self.value(column).is_faulty(column) {
                return Some(column);
            }
        }
        None
    }
}
