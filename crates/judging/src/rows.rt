// The rows of a table that hold in a column for a value, as a word, by one walk over the records.
ghost use Rattle.std.specs.Prelude.{◌≡◌, ◌≤◌, ◌+◌, length};
ghost use Rattle.stored.specs.Items.{key_code};
ghost use Rattle.judging.specs.Requests.{value_of};
ghost use Rattle.judging.specs.Meaning.{element_reading, operator_reading};
ghost use Rattle.judging.specs.Machinery.Rows.{rows_word};
ghost use Rattle.judging.specs.Machinery.Walk.{gathered};
ghost use Rattle.judging.specs.Judging.{rows_of};

use crate::asked::InColumn;
use crate::gathering::gathered_rows;
use crate::request::Value;
use matching::reading::Reading;
use stored::items::{Column, Key, Operator, key_code};
use stored::operators::operator_row;

/// How the values of an element are read.
pub fn element_reading(column: Column) -> Reading
    ensures { result ≡ element_reading column }
{
    match column {
        Column::Principal | Column::NotPrincipal => Reading::Principal,
        Column::Action | Column::NotAction => Reading::Fold,
        Column::Resource | Column::NotResource => Reading::Plain,
    }
}

/// How the values of a condition are read.
pub fn operator_reading(operator: Operator) -> Reading
    ensures { result ≡ operator_reading operator }
{
    if operator_row(operator).literal {
        Reading::Literal
    } else {
        Reading::Plain
    }
}

/// The column that a key is.
pub fn key_column(key: Key) -> usize
    ensures { result ≡ 3 + key_code key }
{
    3 + usize::from(key_code(key))
}

/// The rows of a table that hold in a column for a value, or those of them that allow.
#[tactic(auto, unfolding(crate::specs::Meaning::holds))]
pub fn rows_in(table: &[u8], only: bool, column: usize, value: Value) -> u64
    requires { length (rows_of table.now) ≤ 64 }
    ensures { result ≡ rows_word (gathered only column (value_of value.entry)) (rows_of table.now) }
{
    gathered_rows(table, only, &InColumn { column, value })
}
