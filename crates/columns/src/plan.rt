// The plan of a column, laid down in the workspace by one walk over the records of a table: what decides which rows hold, and nothing else.
ghost use Rattle.std.specs.Prelude.{◌≡◌, not, ◌&&◌, ◌+◌, ◌^◌, ◌<◌, ◌≤◌, Some, None, length};
ghost use Rattle.std.proofs.lemmas.List.Edits.{sets};
ghost use Rattle.std.proofs.Math.Seq.{slice};
ghost use Rattle.stored.specs.Choice.{pick};
ghost use Rattle.stored.specs.Entries.{entry_of, bytes_of, entries_of};
ghost use Rattle.states.specs.Machinery.Rows.{codes_at, prints_at};
ghost use Rattle.columns.specs.Machinery.Plan.{list_word, value_word, network_word, item_word, word_alone, plan_of, PlansFit, LaysPlans};

use crate::contents::ListAt;
use crate::words::Word;
use judging::rows::key_column;
use states::limits::CODES;
use stored::entries::{Entry, entries_of};
use stored::items::{Item, column_place, is_negated_column};
use stored::operators::operator_row;

/// Where the plans of two tables lie: the first's from CODES on, up to where the second's begins, and that one's end.
#[derive(Clone, Copy, Debug, PartialEq, Eq)]
pub struct Plans {
    pub middle: usize,
    pub end: usize,
}

// The words between two places, none where the second is the lower.
fn between(words: &[u64], from: usize, to: usize) -> &[u64]
    requires { to ≤ length words.now }
    ensures { result.now ≡ slice from to words.now }
{
    words[..to].get(from..).unwrap_or(&[])
}

impl Plans {
    // The plan of the first table.
    pub(crate) fn own(self, words: &[u64]) -> &[u64]
        requires { self.middle ≤ length words.now }
        ensures { result.now ≡ slice codes_at self.middle words.now }
    {
        between(words, CODES, self.middle)
    }

    // The plan of the second.
    pub(crate) fn other(self, words: &[u64]) -> &[u64]
        requires { self.end ≤ length words.now }
        ensures { result.now ≡ slice self.middle self.end words.now }
    {
        between(words, self.middle, self.end)
    }
}

// The word of a list that opens, if it is of the column.
fn list_word(here: bool, negated: bool) -> Option<u64>
    ensures { result ≡ pick here (Some (list_word negated)) None }
{
    let word = if negated {
        Word::NegatedList
    } else {
        Word::List
    };
    here.then_some(word.number())
}

// The word of a value, in a column of strings, by its last position.
fn value_word(strings: bool, here: bool, p: usize) -> Option<u64>
    requires { 4 + p < 2 ^ 64 }
    ensures { result ≡ pick (strings && here) (Some (value_word p)) None }
{
    (strings && here).then_some(Word::Content(p as u64).number())
}

// The word of a network, in column 7, by its address and the number of bits behind its prefix.
fn network_word(strings: bool, here: bool, network: u32, prefix: u8) -> Option<u64>
    ensures { result ≡ pick (not strings && here) (Some (network_word network prefix)) None }
{
    let bits = 32u64.saturating_sub(u64::from(prefix));
    (!strings && here).then_some(Word::Content(u64::from(network) * 64 + bits).number())
}

// The word that a record adds to the plan, if any, p being the position in front of it.
fn item_word(column: usize, strings: bool, here: bool, p: usize, entry: Entry) -> Option<u64>
    requires { 4 + (p + length (bytes_of (entry_of entry.item entry.bytes.now))) < 2 ^ 64 }
    ensures { result ≡ item_word column strings here p entry.entry.item (length entry.entry.bytes.now) }
{
    match entry.item {
        Item::Statement(_) => Some(Word::Statement.number()),
        Item::Column(name) => list_word(column_place(name) == column, is_negated_column(name)),
        Item::Condition(operator, key) => list_word(
            key_column(key) == column,
            operator_row(operator).negated,
        ),
        Item::Network(network, prefix) => network_word(strings, here, network, prefix),
        Item::Value => value_word(strings, here, p + entry.bytes.len()),
        Item::Start(_) | Item::End => None,
    }
}

// Lays a word down, if there is one, and answers where the next one goes.
fn lay_word(words: &mut [u64], to: usize, word: Option<u64>) -> usize
    requires { to + length (word_alone word) ≤ length words.old }
    ensures next { result ≡ to + length (word_alone word) }
    ensures laid { words.new ≡ sets words.old to (word_alone word) }
{
    let Some(word) = word else {
        return to;
    };
    words[to] = word;
    to + 1
}

// Lays the plan of a table down, the positions of its values beginning at a place, and answers where the plan ends.
fn lay_plan(
    words: &mut [u64],
    start: usize,
    table: &[u8],
    column: usize,
    strings: bool,
    from: usize,
) -> usize
    requires { (from ≤ 512) × (start + length (plan_of column strings from (entries_of table.now)) ≤ length words.old) }
    ensures next { result ≡ start + length (plan_of column strings from (entries_of table.now)) }
    ensures laid { words.new ≡ sets words.old start (plan_of column strings from (entries_of table.now)) }
{
    let mut list = ListAt::fresh();
    let mut p = from;
    let mut to = start;
    for entry in entries_of(table) {
        to = lay_word(words, to, item_word(column, strings, list.here, p, entry));
        p += list.positions(entry);
        list = list.moved(entry.item, column);
    }
    to
}

/// Lays the plans of both tables down, one behind the other, in the place of the codes, which are not needed once the states are found. The
/// positions of the second table's values begin at a place.
// stays: what may not change lay_plans: it lays either plan of any column down, `strings` or not, for tables that need not have been read.
pub fn lay_plans(
    words: &mut [u64],
    first: &[u8],
    second: &[u8],
    column: usize,
    strings: bool,
    from: usize,
) -> Plans
    requires { PlansFit first.now second.now column strings from × (from ≤ 512) × (prints_at ≤ length words.old) }
    ensures { LaysPlans first.now second.now column strings from words.old words.new result }
{
    let middle = lay_plan(words, CODES, first, column, strings, 0);
    let end = lay_plan(words, middle, second, column, strings, from);
    Plans { middle, end }
}
