// Footprints as sets of rows: the rows of the first table, then those of the second, that hold in a column for an absent value, for an
// address, or for every string with a state.
ghost use Rattle.std.specs.Prelude.{◌≡◌, List, ◌++◌, ℕ, ◌+◌, ◌*◌, ◌^◌, ◌<◌, ◌≤◌, length};
ghost use Rattle.matching.specs.Machinery.Codes.{codes_of};
ghost use Rattle.matching.specs.Machinery.Rows.{row_of};
ghost use Rattle.judging.specs.Requests.{absent, text, number};
ghost use Rattle.judging.specs.Meaning.{holds};
ghost use Rattle.judging.specs.Machinery.Rows.{rows_word};
ghost use Rattle.judging.specs.Judging.{rows_of};
ghost use Rattle.states.specs.Machinery.Rows.{prints_at};
ghost use Rattle.columns.specs.Values.{values_in};
ghost use Rattle.columns.specs.Machinery.Plan.{AddressPlans};
ghost use Rattle.columns.specs.Machinery.Prints.{IsReached, prints_of, Prepared};
ghost use Rattle.columns.specs.Machinery.Both.{Narrow};

use crate::last_positions::{last_positions, rows_meet};
use crate::plan::Plans;
use crate::runs::{address_rows, text_rows};
use crate::tables::Tables;
use judging::request::Value;
use judging::rows::rows_in;

/// What is worked out once for all states of a column of strings: where the plans lie, the last positions of their values, and the rows of
/// each table that hold for a state that has none of these.
#[derive(Clone, Copy, Debug, PartialEq, Eq)]
pub struct Prints {
    pub plans: Plans,
    pub ends: [u64; 8],
    pub own: u64,
    pub other: u64,
}

// The rows of two tables as one set, the second's behind the first's.
fn joined(own: u64, other: u64, size: u64) -> u64
    requires { (own < 2 ^ size) × (size ≤ 32) × (other < 2 ^ 32) }
    ensures { result ≡ own + 2 ^ size * other }
{
    let behind = other << size;
    own + behind
}

/// The footprint of an absent column.
// stays: what may not change absent_print: it asks less of both tables than `Tables` does.
pub fn absent_print(first: &[u8], second: &[u8], column: usize, size: u64) -> u64
    requires { (length (rows_of first.now) ≤ 32) × (length (rows_of second.now) ≤ 32) × (size ≡ length (rows_of first.now)) }
    ensures { result ≡ rows_word (holds column absent) (rows_of first.now ++ rows_of second.now) }
{
    let own = rows_in(first, false, column, Value::Absent);
    let other = rows_in(second, false, column, Value::Absent);
    joined(own, other, size)
}

/// The footprint of an address, by the plans of both tables.
pub fn address_print(words: &[u64], tables: Tables, plans: Plans, x: u64) -> u64
    requires { AddressPlans tables.first.now tables.second.now words.now plans × (prints_at ≤ length words.now) }
    ensures { result ≡ rows_word (holds 7 (number x)) (rows_of tables.entry.first.now ++ rows_of tables.entry.second.now) }
{
    let own = address_rows(plans.own(words), x);
    let other = address_rows(plans.other(words), x);
    joined(own, other, tables.size)
}

/// What all states of a column of strings need, by the plans of both tables.
pub fn prints_of(words: &[u64], plans: Plans) -> Prints
    requires { (plans.middle ≤ length words.now) × (plans.end ≤ length words.now) }
    ensures { result ≡ prints_of words.now plans }
{
    let own_plan = plans.own(words);
    let other_plan = plans.other(words);
    Prints {
        plans,
        ends: last_positions(other_plan, last_positions(own_plan, [0u64; 8])),
        own: text_rows(own_plan, [0u64; 8]),
        other: text_rows(other_plan, [0u64; 8]),
    }
}

/// The footprint of every string with a state, by the plans of both tables; most states have the last position of no value, and these have
/// one footprint.
pub fn state_print(
    words: &[u64],
    row: [u64; 8],
    tables: Tables,
    column: usize,
    prints: Prints,
) -> u64
    requires { Prepared tables.first.now tables.second.now column words.now prints × (prints_at ≤ length words.now)
        × Narrow (rows_of tables.first.now ++ rows_of tables.second.now) column
        × IsReached (codes_of (values_in column (rows_of tables.first.now ++ rows_of tables.second.now))) row }
    ensures { (s : List ℕ) → row_of (codes_of (values_in column (rows_of tables.entry.first.now ++ rows_of tables.entry.second.now))) s ≡ row
        → result ≡ rows_word (holds column (text s)) (rows_of tables.entry.first.now ++ rows_of tables.entry.second.now) }
{
    if rows_meet(row, prints.ends) {
        let own = text_rows(prints.plans.own(words), row);
        let other = text_rows(prints.plans.other(words), row);
        joined(own, other, tables.size)
    } else {
        joined(prints.own, prints.other, tables.size)
    }
}
