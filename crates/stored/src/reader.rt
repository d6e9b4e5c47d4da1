// The reader: every record in order, from a fresh state, until the first faulty record or the end.
ghost use Rattle.std.specs.Prelude.{◌≡◌};
ghost use Rattle.stored.specs.Reading.{as_read, as_step, finish_of, taken_of, step_at, reading};

use crate::limits::MOST_BYTES;
use crate::machine::{State, fresh, is_ended};
use crate::order::due;
use crate::records::{byte_at, kind_of, record_at};
use crate::taking::take_turn;
use refusals::{Reason, Refusal};

// The bytes end here.
fn finish(state: State, at: usize) -> Result<u8, Refusal>
    ensures { as_read result ≡ finish_of state at }
{
    if is_ended(state.phase) {
        Ok(state.rows)
    } else {
        Err(Refusal {
            reason: Reason::Cut,
            place: at,
        })
    }
}

// A record whose kind is in turn.
fn taken(state: State, table: &[u8], at: usize) -> Result<(State, usize), Reason>
    ensures { as_step result ≡ taken_of state table.now at }
{
    let record = record_at(table, at)?;
    let end = record.start + record.size;
    let next = take_turn(state, record.item, &table[record.start..end])?;
    Ok((next, end))
}

// The record at a place: the next state and the next place.
fn step_at(state: State, table: &[u8], at: usize) -> Result<(State, usize), Reason>
    ensures { as_step result ≡ step_at state table.now at }
{
    due(state, kind_of(byte_at(table, at)))?;
    taken(state, table, at)
}

/// Reads any byte string as a table: the number of its statements, or the first refusal and its place.
pub fn read(table: &[u8]) -> Result<u8, Refusal>
    ensures { as_read result ≡ reading table.now }
{
    if MOST_BYTES < table.len() {
        return Err(Refusal {
            reason: Reason::TooLong,
            place: MOST_BYTES,
        });
    }
    let mut state = fresh();
    let mut at: usize = 0;
    // stays: the next place is where a record ends, which no iterator over the records tells, and a refusal needs it
    while at < table.len() {
        match step_at(state, table, at) {
            Ok(next) => (state, at) = next,
            Err(reason) => return Err(Refusal { reason, place: at }),
        }
    }
    finish(state, at)
}
