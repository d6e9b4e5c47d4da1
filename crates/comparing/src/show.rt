// The values of a gap: in each column the first value that shows the gap's footprint. The column is explored once more, and the value
// laid down in its place.
ghost use Rattle.std.specs.Prelude.{◌≡◌, List, [], ◌∷◌, ◌++◌, ℕ, ◌≤◌, ◌<◌, length, drop, replicate};
ghost use Rattle.judging.specs.Requests.{Value, text};
ghost use Rattle.judging.specs.Judging.{rows_of};
ghost use Rattle.states.specs.Machinery.Rows.{prints_at};
ghost use Rattle.columns.specs.Values.{values_in};
ghost use Rattle.columns.specs.Machinery.Plan.{TextPlans, AddressPlans};
ghost use Rattle.columns.specs.Machinery.Prints.{Prepared};
ghost use Rattle.columns.specs.Machinery.Both.{Narrow, FewNetworks};
ghost use Rattle.comparing.specs.Columns.{Few};
ghost use Rattle.comparing.specs.Compared.{value_bytes, Uncrowded};
ghost use Rattle.comparing.specs.Machinery.Survey.{HasStates};
ghost use Rattle.comparing.specs.Machinery.ShownValues.{FirstWith, StartsAt, FoundState, LaidValue, Lays, LaysString, ShowsAddress, RequestWith, LaysGap};

use crate::answers::Shape;
use crate::limits::{VALUE_BYTES, VALUE_ROOM};
use crate::survey::states_of;
use columns::ends::next_edge;
use columns::limits::{ADDRESSES, NO_ADDRESS};
use columns::plan::{Plans, lay_plans};
use columns::prints::{Prints, absent_print, address_print, prints_of, state_print};
use columns::tables::Tables;
use states::limits::FIRST_BYTE;
use states::rows::row_at;
use states::strings::lay_string;

// The lowest of the states from one on that has a footprint.
fn find_state(
    words: &[u64],
    tables: Tables,
    column: usize,
    from: usize,
    states: usize,
    prints: Prints,
    print: u64,
) -> Option<usize>
    requires { HasStates (rows_of tables.first.now) (rows_of tables.second.now) column words.now states
        × (from ≤ states) × (prints_at ≤ length words.now) × Prepared tables.first.now tables.second.now column words.now prints }
    ensures { FoundState (rows_of tables.entry.first.now) (rows_of tables.entry.second.now) column words.now from states print result }
{
    for i in from..states {
        let row = row_at(words, i);
        if state_print(words, row, tables, column, prints) == print {
            return Some(i);
        }
    }
    None
}

// The first string that shows a footprint, from a state on, laid down in its place.
fn show_state(
    words: &[u64],
    tables: Tables,
    column: usize,
    from: usize,
    states: usize,
    plans: Plans,
    print: u64,
    values: &mut [u8],
) -> usize
    requires { HasStates (rows_of tables.first.now) (rows_of tables.second.now) column words.now states
        × StartsAt (rows_of tables.first.now ++ rows_of tables.second.now) column from × (column < 7) × (prints_at ≤ length words.now)
        × (value_bytes ≤ length values.old) × ((s : List ℕ) × FirstWith (rows_of tables.first.now) (rows_of tables.second.now) column print (text s))
        × TextPlans tables.first.now tables.second.now column words.now plans }
    ensures { LaysString (rows_of tables.entry.first.now) (rows_of tables.entry.second.now) column print values.old values.new (Some result) }
{
    let prints = prints_of(words, plans);
    let i = find_state(words, tables, column, from, states, prints, print).unwrap();
    lay_string(words, i, states, values, column * VALUE_ROOM)
}

// The first of all strings, where nothing is listed.
fn show_any(column: usize, values: &mut [u8]) -> usize
    requires { (column < 7) × (value_bytes ≤ length values.old) }
    ensures { LaidValue column values.old values.new (Some result) (text (0x21 ∷ [])) }
{
    values[column * VALUE_ROOM] = FIRST_BYTE;
    1
}

// The first value that shows a footprint of a column that is always there, laid down in its place.
fn show_text(
    words: &mut [u64],
    tables: Tables,
    column: usize,
    print: u64,
    values: &mut [u8],
) -> usize
    requires { Narrow (rows_of tables.first.now ++ rows_of tables.second.now) column
        × Few (values_in column (rows_of tables.first.now ++ rows_of tables.second.now)) × (column < 3) × (prints_at ≤ length words.old)
        × (value_bytes ≤ length values.old) × ((v : Value) × FirstWith (rows_of tables.first.now) (rows_of tables.second.now) column print v) }
    ensures { Lays (rows_of tables.entry.first.now) (rows_of tables.entry.second.now) column print values.old values.new (Some result) }
{
    let found = states_of(words, tables, column);
    if found.positions == 0 {
        return show_any(column, values);
    }
    let states = found.states.unwrap();
    let plans = lay_plans(words, tables.first, tables.second, column, true, found.own);
    show_state(words, tables, column, 1, states, plans, print, values)
}

// The first value that shows a footprint of a column that holds a string key, laid down in its place, unless absence shows it.
fn show_key(
    words: &mut [u64],
    tables: Tables,
    column: usize,
    print: u64,
    values: &mut [u8],
) -> Option<usize>
    requires { Narrow (rows_of tables.first.now ++ rows_of tables.second.now) column
        × Few (values_in column (rows_of tables.first.now ++ rows_of tables.second.now)) × (3 ≤ column) × (column < 7) × (prints_at ≤ length words.old)
        × (value_bytes ≤ length values.old) × ((v : Value) × FirstWith (rows_of tables.first.now) (rows_of tables.second.now) column print v) }
    ensures { Lays (rows_of tables.entry.first.now) (rows_of tables.entry.second.now) column print values.old values.new result }
{
    if absent_print(tables.first, tables.second, column, tables.size) == print {
        return None;
    }
    let found = states_of(words, tables, column);
    let states = found.states.unwrap();
    let plans = lay_plans(words, tables.first, tables.second, column, true, found.own);
    Some(show_state(words, tables, column, 0, states, plans, print, values))
}

// The first address that shows a footprint, unless absence shows it: only address 0 and the ends of networks can be the first.
fn show_address(words: &[u64], tables: Tables, plans: Plans, print: u64) -> Option<u32>
    requires { AddressPlans tables.first.now tables.second.now words.now plans × (prints_at ≤ length words.now) }
    ensures { ShowsAddress (rows_of tables.entry.first.now) (rows_of tables.entry.second.now) print result }
{
    if absent_print(tables.first, tables.second, ADDRESSES, tables.size) == print {
        return None;
    }
    let mut x: u64 = 0;
    // stays: no plainer: x goes on from edge to edge.
    while x < NO_ADDRESS {
        if address_print(words, tables, plans, x) == print {
            return Some(x as u32);
        }
        x = next_edge(words, tables.first, tables.second, plans, x);
    }
    None
}

// The first 3,584 bytes are zero.
fn clear_values(values: &mut [u8])
    requires { value_bytes ≤ length values.old }
    ensures { values.new ≡ replicate value_bytes 0 ++ drop value_bytes values.old }
{
    values[..VALUE_BYTES].fill(0);
}

// Lays down the values of the gap with these footprints, column by column.
pub(crate) fn show_gap(
    words: &mut [u64],
    tables: Tables,
    prints: [u64; 8],
    values: &mut [u8],
) -> Shape
    requires { ((column : ℕ) → column < 7 → Narrow (rows_of tables.first.now ++ rows_of tables.second.now) column)
        × Uncrowded (rows_of tables.first.now ++ rows_of tables.second.now) × (prints_at ≤ length words.old) × (value_bytes ≤ length values.old)
        × ((request : List Value) × RequestWith (rows_of tables.first.now) (rows_of tables.second.now) prints request)
        × FewNetworks (rows_of tables.first.now ++ rows_of tables.second.now) }
    ensures { LaysGap (rows_of tables.entry.first.now) (rows_of tables.entry.second.now) prints values.old values.new result }
{
    clear_values(values);
    let principal = show_text(words, tables, 0, prints[0], values);
    let action = show_text(words, tables, 1, prints[1], values);
    let resource = show_text(words, tables, 2, prints[2], values);
    let vpc = show_key(words, tables, 3, prints[3], values);
    let prefix = show_key(words, tables, 4, prints[4], values);
    let vpce = show_key(words, tables, 5, prints[5], values);
    let referer = show_key(words, tables, 6, prints[6], values);
    let plans = lay_plans(words, tables.first, tables.second, ADDRESSES, false, 0);
    let address = show_address(words, tables, plans, prints[7]);
    Shape {
        principal,
        action,
        resource,
        vpc,
        prefix,
        vpce,
        referer,
        address,
    }
}
