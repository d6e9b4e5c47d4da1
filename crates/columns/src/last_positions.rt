// The last positions of the values of a plan, as a row: a state that has none of them matches no value.
ghost use Rattle.std.specs.Prelude.{◌≡◌, true};
ghost use Rattle.matching.specs.Machinery.Rows.{mark_row};
ghost use Rattle.columns.specs.Machinery.LastPositions.{word_marked, last_positions, rows_meet};

use crate::words::Word;
use matching::state::{POSITIONS, mark};

// The row with position p marked; past its words a row has no position.
fn marked(row: [u64; 8], p: usize) -> [u64; 8]
    ensures { result ≡ mark_row row p true }
{
    if p < POSITIONS {
        mark(row, p, true)
    } else {
        row
    }
}

// The row with the last position of a value marked, if the word of the plan is a value.
fn word_marked(row: [u64; 8], word: u64) -> [u64; 8]
    ensures { result ≡ word_marked row word }
{
    match Word::of(word) {
        Word::Content(p) => marked(row, p as usize),
        Word::Statement | Word::List | Word::NegatedList => row,
    }
}

// The row with the last positions of all values of a plan marked.
pub(crate) fn last_positions(plan: &[u64], row: [u64; 8]) -> [u64; 8]
    ensures { result ≡ last_positions row plan.now }
{
    let mut ends = row;
    for &word in plan {
        // stays: tried as one line, and the borrow checker does not cover a call's result laid in a local that holds an array.
        let more = word_marked(ends, word);
        ends = more;
    }
    ends
}

// Two rows have a position in common.
pub(crate) fn rows_meet(row: [u64; 8], other: [u64; 8]) -> bool
    ensures { result ≡ rows_meet row other }
{
    row.iter().zip(&other).any(|(a, b)| a & b != 0)
}
