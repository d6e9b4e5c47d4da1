// What stands in a column of a table: its values and networks, one after the other, counted, and its values' codes laid down.
ghost use Rattle.std.specs.Prelude.{◌≡◌, ◌+◌, ◌≤◌, length};
ghost use Rattle.std.proofs.lemmas.List.Edits.{sets};
ghost use Rattle.stored.specs.Entries.{entries_of};
ghost use Rattle.stored.specs.Machinery.Following.{Accepted};
ghost use Rattle.matching.specs.Machinery.Codes.{value_codes, codes_of};
ghost use Rattle.judging.specs.Judging.{rows_of};
ghost use Rattle.columns.specs.Values.{values_in, sum_of, networks_in};
ghost use Rattle.columns.specs.Machinery.Lists.{fresh_list, moved_of, found_of, positions_of};
ghost use Rattle.columns.specs.Machinery.ContentsLeft.{as_found, contents_left, all_contents};

use crate::limits::ADDRESSES;
use judging::rows::{element_reading, key_column, operator_reading};
use matching::codes::START;
use matching::reading::Reading;
use matching::symbols::symbols_of;
use stored::entries::{Entries, Entry, entries_of};
use stored::items::{Item, column_place};

// What stands in a list: a value, or a network by its address and the length of its prefix.
#[derive(Clone, Copy, Debug)]
enum Listed<'a> {
    Text(&'a [u8]),
    Range(u32, u8),
}

// What stands in a column, with how its list is read.
#[derive(Clone, Copy, Debug)]
struct Content<'a> {
    reading: Reading,
    listed: Listed<'a>,
}

/// The list at hand of a walk: whether it is of the column, and how it is read.
// stays: no plainer as an `Option<Reading>`: the definitions of the walk keep how a list that is not of the column is read, too.
#[derive(Clone, Copy, Debug, PartialEq, Eq)]
pub struct ListAt {
    pub here: bool,
    pub reading: Reading,
}

impl ListAt {
    // Before the first list.
    pub(crate) fn fresh() -> Self
        ensures { result ≡ fresh_list }
    {
        ListAt {
            here: false,
            reading: Reading::Literal,
        }
    }

    // The list at hand behind a record: a statement closes it, an element or a condition opens one.
    pub(crate) fn moved(self, item: Item, column: usize) -> Self
        ensures { result ≡ moved_of column self item }
    {
        match item {
            Item::Statement(_) => ListAt {
                here: false,
                ..self
            },
            Item::Column(name) => ListAt {
                here: column_place(name) == column,
                reading: element_reading(name),
            },
            Item::Condition(operator, key) => ListAt {
                here: key_column(key) == column,
                reading: operator_reading(operator),
            },
            Item::Start(_) | Item::Network(..) | Item::Value | Item::End => self,
        }
    }

    // The positions that a record adds to the column: one more than a value's bytes.
    pub(crate) fn positions(self, entry: Entry) -> usize
        ensures { result ≡ positions_of self entry.entry.item (length entry.entry.bytes.now) }
    {
        if self.here && entry.item == Item::Value {
            entry.bytes.len() + 1
        } else {
            0
        }
    }

    // What a record adds to the column.
    fn found(self, entry: Entry) -> Option<Content>
        ensures { as_found result ≡ found_of self entry.entry.item entry.entry.bytes.now }
    {
        let listed = match entry.item {
            Item::Value => Listed::Text(entry.bytes),
            Item::Network(address, prefix) => Listed::Range(address, prefix),
            _ => return None,
        };
        self.here.then_some(Content {
            reading: self.reading,
            listed,
        })
    }
}

// The contents of a column of a table, one after the other.
#[derive(Clone, Copy, Debug)]
struct Contents<'a> {
    entries: Entries<'a>,
    column: usize,
    list: ListAt,
}

// All that stands in a column of a table.
#[tactic(auto, unfolding(crate::specs::Machinery::ContentsLeft::contents_left))]
fn contents_of(table: &[u8], column: usize) -> Contents
    ensures { contents_left result ≡ all_contents column (entries_of table.now) }
{
    Contents {
        entries: entries_of(table),
        column,
        list: ListAt::fresh(),
    }
}

impl<'a> Iterator for Contents<'a> {
    ghost use Rattle.std.specs.Iterator.{YieldsFirstBy, item_count};
    ghost use Rattle.columns.specs.Machinery.ContentsLeft.{content_of, contents_left};

    type Item = Content<'a>;

    ghost next_gives = { YieldsFirstBy content_of contents_left };

    ghost remaining = { item_count contents_left };

    fn next(&mut self) -> Option<Content<'a>> {
        // stays: no plainer: an entry changes the list at hand, which a chain over the entries would have to carry
        while let Some(entry) = self.entries.next() {
            let list = self.list;
            self.list = list.moved(entry.item, self.column);
            if let Some(content) = list.found(entry) {
                return Some(content);
            }
        }
        None
    }
}

/// The sum of (length plus 1) over the values of a column.
// stays: what may not change positions_in, networks_in, lay_codes: docs/PROMISES.md names the three, each with what it requires of its table.
pub fn positions_in(table: &[u8], column: usize) -> usize
    requires { Accepted (entries_of table.now) }
    ensures { result ≡ sum_of (values_in column (rows_of table.now)) }
{
    let mut sum = 0;
    for content in contents_of(table, column) {
        if let Listed::Text(value) = content.listed {
            sum += value.len() + 1;
        }
    }
    sum
}

/// The networks of column 7.
pub fn networks_in(table: &[u8]) -> usize
    requires { Accepted (entries_of table.now) }
    ensures { result ≡ length (networks_in (rows_of table.now)) }
{
    contents_of(table, ADDRESSES)
        .filter(|content| matches!(content.listed, Listed::Range(..)))
        .count()
}

// Lays the codes of a value down, and answers where the next one goes.
fn lay_value(codes: &mut [u64], at: usize, value: &[u8], reading: Reading) -> usize
    requires { at + (length value.now + 1) ≤ length codes.old }
    ensures next { result ≡ at + (length value.now + 1) }
    ensures laid { codes.new ≡ sets codes.old at (value_codes reading value.now) }
{
    codes[at] = START;
    let mut to = at + 1;
    for code in symbols_of(value, reading) {
        codes[to] = code;
        to += 1;
    }
    to
}

/// Lays the codes of a column's values down, one behind the other, and answers where the next one goes.
pub fn lay_codes(codes: &mut [u64], from: usize, table: &[u8], column: usize) -> usize
    requires { Accepted (entries_of table.now) × (from + sum_of (values_in column (rows_of table.now)) ≤ length codes.old) }
    ensures next { result ≡ from + sum_of (values_in column (rows_of table.now)) }
    ensures laid { codes.new ≡ sets codes.old from (codes_of (values_in column (rows_of table.now))) }
{
    let mut to = from;
    for content in contents_of(table, column) {
        if let Listed::Text(value) = content.listed {
            to = lay_value(codes, to, value, content.reading);
        }
    }
    to
}
