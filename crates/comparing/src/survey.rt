// The footprints of every column: which states its strings have, and which rows hold for each; or the column that has too many states.
ghost use Rattle.std.specs.Prelude.{◌≡◌, ◌++◌, ◌+◌, ◌-◌, ◌*◌, ◌≤◌, ◌<◌, min, ltb, length};
ghost use Rattle.stored.specs.Choice.{pick};
ghost use Rattle.judging.specs.Judging.{rows_of};
ghost use Rattle.states.specs.Machinery.Rows.{prints_at};
ghost use Rattle.columns.specs.Values.{values_in, sum_of};
ghost use Rattle.columns.specs.Machinery.Plan.{TextPlans, AddressPlans};
ghost use Rattle.columns.specs.Machinery.Prints.{Prepared};
ghost use Rattle.columns.specs.Machinery.Both.{Narrow, FewNetworks};
ghost use Rattle.comparing.specs.Compared.{most_kinds};
ghost use Rattle.comparing.specs.Machinery.Survey.{HasRoom, Added, HasStates, RowsAdded, Gathered, FoundStates, SurveyedColumn, Surveyable, Surveyed};

use crate::answers::Refused;
use crate::limits::{COLUMNS, MOST_KINDS};
use columns::contents::lay_codes;
use columns::ends::next_edge;
use columns::limits::{ADDRESSES, NO_ADDRESS};
use columns::plan::{Plans, lay_plans};
use columns::prints::{Prints, absent_print, address_print, prints_of, state_print};
use columns::tables::Tables;
use refusals::Reason;
use states::explore::explore;
use states::limits::{CODES, PRINTS, TAKEN};
use states::rows::row_at;
use states::taken::lay_taken;

/// The states of a column of strings: the positions of the first table's values, of both tables' values, and the number of states, unless
/// they pass 512.
#[derive(Clone, Copy)]
pub struct States {
    pub own: usize,
    pub positions: usize,
    pub states: Option<usize>,
}

// Lays a footprint down behind those of its column, unless it is among them, and answers where they then end.
// stays: project rule (fixed lent memory): the footprints of all columns lie in the workspace, one behind the other, and there is no list to push to.
fn add_print(words: &mut [u64], from: usize, to: usize, print: u64) -> usize
    requires { (from ≤ to) × (prints_at + to < length words.old) }
    ensures { Added words.old words.new from to print result }
{
    if words[PRINTS + from..PRINTS + to].contains(&print) {
        return to;
    }
    words[PRINTS + to] = print;
    to + 1
}

// The footprints of the rows of states from one on.
fn gather_rows(
    words: &mut [u64],
    tables: Tables,
    column: usize,
    from: usize,
    start: usize,
    row: usize,
    states: usize,
    prints: Prints,
) -> usize
    requires { HasStates (rows_of tables.first.now) (rows_of tables.second.now) column words.old states
        × (row ≤ states) × (from ≤ start) × (prints_at + start + states < length words.old)
        × Prepared tables.first.now tables.second.now column words.old prints }
    ensures { RowsAdded (rows_of tables.entry.first.now) (rows_of tables.entry.second.now) column words.old words.new from start row (states - row) result }
{
    let mut to = start;
    for i in row..states {
        let state = row_at(words, i);
        let print = state_print(words, state, tables, column, prints);
        to = add_print(words, from, to, print);
    }
    to
}

// The footprints of a column of strings that was explored. Absent comes first where a column may be absent; the empty string is not
// admitted in columns 0 to 2, but where neither table has a value there every string has its state.
fn gather_texts(
    words: &mut [u64],
    tables: Tables,
    column: usize,
    from: usize,
    states: usize,
    positions: usize,
    plans: Plans,
) -> usize
    requires { HasStates (rows_of tables.first.now) (rows_of tables.second.now) column words.old states
        × (positions ≡ sum_of (values_in column (rows_of tables.first.now ++ rows_of tables.second.now))) × (column < 7) × HasRoom words.old from
        × TextPlans tables.first.now tables.second.now column words.old plans }
    ensures { Gathered (rows_of tables.entry.first.now) (rows_of tables.entry.second.now) column words.old words.new from result }
{
    let prints = prints_of(words, plans);
    if column < 3 {
        if positions == 0 {
            let state = row_at(words, 0);
            let print = state_print(words, state, tables, column, prints);
            return add_print(words, from, from, print);
        }
        return gather_rows(words, tables, column, from, from, 1, states, prints);
    }
    let absent = absent_print(tables.first, tables.second, column, tables.size);
    let start = add_print(words, from, from, absent);
    gather_rows(words, tables, column, from, start, 0, states, prints)
}

// The footprints of column 7: absent, then address 0 and each address where a network begins or has just ended.
fn gather_addresses(words: &mut [u64], tables: Tables, from: usize, plans: Plans) -> usize
    requires { FewNetworks (rows_of tables.first.now ++ rows_of tables.second.now) × HasRoom words.old from
        × AddressPlans tables.first.now tables.second.now words.old plans }
    ensures { Gathered (rows_of tables.entry.first.now) (rows_of tables.entry.second.now) 7 words.old words.new from result }
{
    let absent = absent_print(tables.first, tables.second, ADDRESSES, tables.size);
    let mut to = add_print(words, from, from, absent);
    let mut x: u64 = 0;
    // stays: no plainer: x goes on from edge to edge, and the words that the next edge is read from change on the way.
    while x < NO_ADDRESS {
        let print = address_print(words, tables, plans, x);
        to = add_print(words, from, to, print);
        x = next_edge(words, tables.first, tables.second, plans, x);
    }
    to
}

// The states of a column of strings: its codes are laid down, then all its states are found.
pub(crate) fn states_of(words: &mut [u64], tables: Tables, column: usize) -> States
    requires { Narrow (rows_of tables.first.now ++ rows_of tables.second.now) column × (prints_at ≤ length words.old) }
    ensures { FoundStates (rows_of tables.entry.first.now) (rows_of tables.entry.second.now) column words.old words.new result }
{
    let own = lay_codes(&mut words[CODES..TAKEN], 0, tables.first, column);
    let positions = lay_codes(&mut words[CODES..TAKEN], own, tables.second, column);
    lay_taken(words, positions);
    let states = explore(words, positions);
    States {
        own,
        positions,
        states,
    }
}

// The footprints of one column, laid down from a bound on: where they end, unless the column has too many states.
fn survey_column(words: &mut [u64], tables: Tables, column: usize, from: usize) -> Option<usize>
    requires { Surveyable (rows_of tables.first.now ++ rows_of tables.second.now) words.old × (column < 8) × (from ≤ 1094) }
    ensures { SurveyedColumn (rows_of tables.entry.first.now) (rows_of tables.entry.second.now) column words.old words.new from result }
{
    if column == ADDRESSES {
        let networks = lay_plans(words, tables.first, tables.second, ADDRESSES, false, 0);
        return Some(gather_addresses(words, tables, from, networks));
    }
    let found = states_of(words, tables, column);
    let states = found.states?;
    let plans = lay_plans(words, tables.first, tables.second, column, true, found.own);
    Some(gather_texts(words, tables, column, from, states, found.positions, plans))
}

// The product of the counts so far, or one more than the limit where it passes that.
// stays: no plainer as an Option: what is laid down of a column, and the refusal, go by this number against the limit.
fn kinds_so_far(kinds: u64, count: usize) -> u64
    requires { (0 < count) × (count ≤ 513) × (kinds ≤ most_kinds + 1) }
    ensures { result ≡ min (most_kinds + 1) (kinds * count) }
{
    let product = kinds * (count as u64);
    product.min(MOST_KINDS + 1)
}

// Where the footprints of the next column go: once there are too many kinds, none are kept.
fn next_bound(kinds: u64, from: usize, to: usize) -> usize
    ensures { result ≡ pick (ltb most_kinds kinds) from to }
{
    if MOST_KINDS < kinds { from } else { to }
}

// The footprints of all columns, one behind the other: where those of each column begin and end. Once there are too many kinds, only the
// states are still counted.
pub(crate) fn survey(words: &mut [u64], tables: Tables) -> Result<[usize; 9], Refused>
    requires { Surveyable (rows_of tables.first.now ++ rows_of tables.second.now) words.old }
    ensures { Surveyed (rows_of tables.entry.first.now) (rows_of tables.entry.second.now) words.new result }
{
    let mut bounds = [0usize; 9];
    let mut from: usize = 0;
    let mut kinds: u64 = 1;
    for column in 0..COLUMNS {
        let to = survey_column(words, tables, column, from).ok_or(Refused::together(
            Reason::Crowded,
            column,
        ))?;
        kinds = kinds_so_far(kinds, to - from);
        from = next_bound(kinds, from, to);
        bounds[column + 1] = from;
    }
    if MOST_KINDS < kinds {
        return Err(Refused::together(Reason::TooManyKinds, 0));
    }
    Ok(bounds)
}
