// The reader of policies in the public JSON form: 20, then 21 and 22, then the records' own refusals, then 1, then 14, then the table is written.
ghost use Rattle.policy.specs.Answers.{as_json, JsonAnswered};

use crate::trying::dry_run;
use crate::writing::write_all;
use json_text::reader::json_fault;
use members::checking::members_fault;
use refusals::{Reason, Refusal};
use stored::limits::MOST_BYTES;

/// Reads a policy into a table, and says how many bytes were written. A refusal leaves the table's bytes as they were.
pub fn read_json(text: &[u8], table: &mut [u8]) -> Result<usize, Refusal>
    ensures { JsonAnswered text.now table.old (as_json result) table.new }
{
    if let Some(place) = json_fault(text) {
        let reason = Reason::NotJson;
        return Err(Refusal { reason, place });
    }
    members_fault(text)?;
    let size = dry_run(text)?;
    if MOST_BYTES < size {
        return Err(Refusal {
            reason: Reason::TooLong,
            place: MOST_BYTES,
        });
    }
    if table.len() < size {
        return Err(Refusal {
            reason: Reason::NoRoom,
            place: 0,
        });
    }
    Ok(write_all(text, table))
}
