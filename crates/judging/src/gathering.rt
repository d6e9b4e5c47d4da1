// The walk over the records of a table that gathers the rows whose lists hold, each against what is asked of its column.
ghost use Rattle.std.specs.Prelude.{◌≡◌, ◌≤◌, ◌+◌, length};
ghost use Rattle.stored.specs.Items.{key_code};
ghost use Rattle.stored.specs.Operators.{row_of};
ghost use Rattle.stored.specs.Entries.{entry_of};
ghost use Rattle.judging.specs.Requests.{is_present};
ghost use Rattle.judging.specs.Meaning.{is_allow, operator_reading};
ghost use Rattle.judging.specs.Machinery.Rows.{rows_word};
ghost use Rattle.judging.specs.Machinery.Walk.{condition_of, item_column, step_in, gathered_in};
ghost use Rattle.judging.specs.Judging.{rows_of};

use crate::asked::Asked;
use crate::rows::{element_reading, key_column, operator_reading};
use crate::walk::Walk;
use stored::entries::{Entry, entries_of};
use stored::items::{Effect, Item, Key, Operator, column_place, is_negated_column};
use stored::operators::operator_row;

fn is_allow(effect: Effect) -> bool
    ensures { result ≡ is_allow effect }
{
    effect == Effect::Allow
}

// A condition opens.
fn condition_asked<A: Asked>(walk: Walk, operator: Operator, key: Key, asked: &A) -> Walk
    ensures { result ≡ condition_of (A.watched asked.now (3 + key_code key)) (is_present (A.held asked.now (3 + key_code key))) (row_of operator).absent (row_of operator).negated (operator_reading operator) walk }
{
    let row = operator_row(operator);
    let column = key_column(key);
    walk.condition_opened(
        asked.watches(column),
        asked.holds(column).is_present(),
        row.absent,
        row.negated,
        operator_reading(operator),
    )
}

// One record; column: that of the last list opened.
#[tactic(auto, unfolding(crate::specs::Machinery::Walk::step_in))]
fn step<A: Asked>(walk: Walk, column: usize, entry: Entry, only: bool, asked: &A) -> Walk
    ensures { result ≡ step_in only (A.watched asked.now) (A.held asked.now) walk column (entry_of entry.entry.item entry.entry.bytes.now) }
{
    match entry.item {
        Item::Start(_) => walk,
        Item::Statement(effect) => walk.began(!only || is_allow(effect)),
        Item::Column(name) => walk.opened(
            asked.watches(column_place(name)),
            true,
            is_negated_column(name),
            element_reading(name),
        ),
        Item::Condition(operator, key) => condition_asked(walk, operator, key, asked),
        Item::Network(network, length) => {
            if walk.matters() {
                walk.seen(asked.holds(column).lies_in(network, length))
            } else {
                walk
            }
        }
        Item::Value => {
            if walk.matters() {
                walk.seen(asked.holds(column).matches(walk.reading, entry.bytes))
            } else {
                walk
            }
        }
        Item::End => walk,
    }
}

// The column of the last list opened, behind a record.
fn column_behind(item: Item, column: usize) -> usize
    ensures { result ≡ item_column column item }
{
    match item {
        Item::Column(name) => column_place(name),
        Item::Condition(_, key) => key_column(key),
        Item::Start(_) | Item::Statement(_) | Item::Network(_, _) | Item::Value | Item::End =>
            column,
    }
}

// The rows of a table that count and whose lists hold.
pub(crate) fn gathered_rows<A: Asked>(table: &[u8], only: bool, asked: &A) -> u64
    requires { length (rows_of table.now) ≤ 64 }
    ensures { result ≡ rows_word (gathered_in only (A.watched asked.now) (A.held asked.now)) (rows_of table.now) }
{
    let mut walk = Walk::fresh();
    let mut column: usize = 0;
    for entry in entries_of(table) {
        walk = step(walk, column, entry, only, asked);
        column = column_behind(entry.item, column);
    }
    walk.done()
}
