// The two questions about two tables: how many gaps there are, and what gap k is.
ghost use Rattle.std.specs.Prelude.{◌≡◌, ◌||◌, ◌++◌, ◌≤◌, ◌<◌, ◌+◌, ltb, length, MatchOption, MatchResult};
ghost use Rattle.refusals.specs.Numbers.{number_of};
ghost use Rattle.stored.specs.Reading.{ReadAnswer as A, reading};
ghost use Rattle.judging.specs.Requests.{columns};
ghost use Rattle.judging.specs.Judging.{rows_of};
ghost use Rattle.comparing.specs.Columns.{is_wide};
ghost use Rattle.comparing.specs.Answers.{Counting as C, as_counting, as_showing};
ghost use Rattle.comparing.specs.Compared.{workspace_words, value_bytes, first_wide, FromTables, IsCount, IsAnswer, keeps, Compared, Shown, cleared};
ghost use Rattle.comparing.specs.Outcomes.{IsTable};
ghost use Rattle.comparing.specs.Machinery.Product.{SidesOf};
ghost use Rattle.comparing.specs.Machinery.Refusing.{RefusesTables};
ghost use Rattle.comparing.specs.Machinery.Survey.{SurveyedBoth};

use crate::answers::{Refused, Shape, Side};
use crate::kinds::Footprints;
use crate::limits::{COLUMNS, MOST_NETWORKS, MOST_POSITIONS, VALUE_BYTES, WORKSPACE_WORDS};
use crate::show::show_gap;
use crate::sides::Sides;
use crate::survey::survey;
use columns::contents::{networks_in, positions_in};
use columns::limits::ADDRESSES;
use columns::tables::Tables;
use judging::judge::allow_rows;
use refusals::{Reason, Refusal};
use states::rows::clear;
use stored::reader::read;

// Two numbers have a sum above a limit.
fn is_over(limit: usize, a: usize, b: usize) -> bool
    ensures { result ≡ ltb limit (a + b) }
{
    limit < a || limit - a < b
}

// Refusal 10 is given for the column.
fn is_wide(tables: Tables, column: usize) -> bool
    ensures { result ≡ is_wide (rows_of tables.entry.first.now ++ rows_of tables.entry.second.now) column }
{
    if column < ADDRESSES {
        is_over(
            MOST_POSITIONS,
            positions_in(tables.first, column),
            positions_in(tables.second, column),
        )
    } else {
        is_over(
            MOST_NETWORKS,
            networks_in(tables.first),
            networks_in(tables.second),
        )
    }
}

// The lowest column that refusal 10 is given for.
fn first_wide(tables: Tables) -> Option<usize>
    ensures { let first = first_wide (rows_of tables.entry.first.now ++ rows_of tables.entry.second.now) in
        MatchOption result (columns ≤ first) (λ column. (column ≡ first) × (first < columns)) }
{
    for column in 0..COLUMNS {
        if is_wide(tables, column) {
            return Some(column);
        }
    }
    None
}

// The number of rows of the first table, and the allow rows of both.
fn sides_of(tables: Tables) -> Sides
    ensures { SidesOf (rows_of tables.entry.first.now) (rows_of tables.entry.second.now) result }
{
    Sides {
        size: tables.size,
        allow: allow_rows(tables.first),
        other: allow_rows(tables.second),
    }
}

// A table's number of rows, or its refusal as one of that side.
fn read_side(table: &[u8], side: Side) -> Result<u8, Refused>
    ensures { MatchResult result (λ rows. reading table.now ≡ A.Accepted rows) (λ refused. (refused.table ≡ side) × (reading table.now ≡ A.Refused (number_of refused.reason) refused.place)) }
{
    read(table).map_err(|Refusal { reason, place }| Refused {
        reason,
        table: side,
        place,
    })
}

// Both tables as the reader accepts them, or the refusal of the first that it does not.
fn read_both<'a>(first: &'a [u8], second: &'a [u8]) -> Result<Tables<'a>, Refused>
    ensures { MatchResult result (λ tables. (tables.first ≡ first.entry) × (tables.second ≡ second.entry) × IsTable tables.first.now × IsTable tables.second.now) (λ refused. RefusesTables first.entry.now second.entry.now (as_counting (Err refused))) }
{
    let rows = read_side(first, Side::First)?;
    read_side(second, Side::Second)?;
    Ok(Tables::new(first, second, u64::from(rows)))
}

// Where the footprints of each column of both tables begin and end, or the refusal that their widths, states and kinds get.
fn survey_both(words: &mut [u64], tables: Tables) -> Result<[usize; 9], Refused>
    requires { workspace_words ≤ length words.old }
    ensures { SurveyedBoth (rows_of tables.entry.first.now) (rows_of tables.entry.second.now) words.new result }
{
    if let Some(column) = first_wide(tables) {
        return Err(Refused::together(Reason::TooWide, column));
    }
    survey(words, tables)
}

// The number of gaps, where the workspace is long enough.
fn count(words: &mut [u64], first: &[u8], second: &[u8]) -> Result<u64, Refused>
    requires { workspace_words ≤ length words.old }
    ensures { FromTables C.Refused IsCount (reading first.now) (reading second.now) (rows_of first.now) (rows_of second.now) (as_counting result) }
{
    let tables = read_both(first, second)?;
    let bounds = survey_both(words, tables)?;
    let footprints = Footprints::new(words, bounds, sides_of(tables));
    Ok(footprints.count_gaps())
}

/// How many kinds of request the first table allows and the second does not. The workspace is all zero afterwards, unless it is too short.
pub fn gap_count(workspace: &mut [u64], first: &[u8], second: &[u8]) -> Result<u64, Refused>
    ensures answer { Compared (length workspace.old) first.now second.now (as_counting result) }
    ensures left { workspace.new ≡ cleared (ltb (length workspace.old) workspace_words) workspace.old }
{
    if workspace.len() < WORKSPACE_WORDS {
        return Err(Refused::together(Reason::NoRoom, 0));
    }
    let answer = count(workspace, first, second);
    clear(workspace);
    answer
}

// Gap k, where the workspace and the value buffer are long enough.
fn find(
    words: &mut [u64],
    first: &[u8],
    second: &[u8],
    k: u64,
    values: &mut [u8],
) -> Result<Shape, Refused>
    requires { (workspace_words ≤ length words.old) × (value_bytes ≤ length values.old) }
    ensures { FromTables (keeps values.old) (IsAnswer k values.old) (reading first.now) (reading second.now) (rows_of first.now) (rows_of second.now) (as_showing result, values.new) }
{
    let tables = read_both(first, second)?;
    let bounds = survey_both(words, tables)?;
    let footprints = Footprints::new(words, bounds, sides_of(tables));
    if footprints.count_gaps() <= k {
        return Err(Refused::together(Reason::NoSuchGap, 0));
    }
    let prints = footprints.gap_prints(k);
    let shape = show_gap(words, tables, prints, values);
    Ok(shape)
}

/// Gap k, counted from 0: the first value of each column is laid down in the value buffer. A refused question leaves that buffer as it was.
pub fn gap(
    workspace: &mut [u64],
    first: &[u8],
    second: &[u8],
    k: u64,
    values: &mut [u8],
) -> Result<Shape, Refused>
    ensures answer { Shown (length workspace.old) first.now second.now k values.old (as_showing result, values.new) }
    ensures left { workspace.new ≡ cleared (ltb (length workspace.old) workspace_words || ltb (length values.old) value_bytes) workspace.old }
{
    if workspace.len() < WORKSPACE_WORDS || values.len() < VALUE_BYTES {
        return Err(Refused::together(Reason::NoRoom, 0));
    }
    let answer = find(workspace, first, second, k, values);
    clear(workspace);
    answer
}
