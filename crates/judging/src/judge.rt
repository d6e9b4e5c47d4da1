// The judge: the rows that apply and the allow statements decide.
ghost use Rattle.std.specs.Prelude.{◌≡◌, ◌≤◌, length};
ghost use Rattle.judging.specs.Requests.{columns_of};
ghost use Rattle.judging.specs.Meaning.{is_allow};
ghost use Rattle.judging.specs.Machinery.Rows.{rows_word};
ghost use Rattle.judging.specs.Judging.{rows_of, as_verdict, as_judgement, judged, judgement};
ghost use Rattle.judging.specs.Machinery.Verdict.{verdict_of_rows};

use crate::applying::applying_rows;
use crate::request::{COLUMNS, Request, Value};
use crate::rows::rows_in;
use refusals::{Reason, Refusal};
use stored::reader::read;

/// What the statements of a table say of a request.
#[derive(Clone, Copy, Debug, PartialEq, Eq)]
pub enum Verdict {
    /// Some allow statement applies, and no deny statement does.
    Allowed,
    /// Some deny statement applies.
    DeniedByRule,
    /// No statement applies.
    NotMentioned,
}

/// The allow statements of a table.
// In a column that no list speaks of every row holds, so that the allow statements are left.
#[tactic(auto, using(crate::proofs::ByColumn::allowing))]
pub fn allow_rows(table: &[u8]) -> u64
    requires { length (rows_of table.now) ≤ 64 }
    ensures { result ≡ rows_word (λ s. is_allow s.effect) (rows_of table.now) }
{
    rows_in(table, true, COLUMNS, Value::Absent)
}

// The verdict, given the rows that apply and those that allow.
fn verdict_of(rows: u64, allow: u64) -> Verdict
    ensures { as_verdict result ≡ verdict_of_rows rows allow }
{
    if rows & allow != rows {
        Verdict::DeniedByRule
    } else if rows == 0 {
        Verdict::NotMentioned
    } else {
        Verdict::Allowed
    }
}

// A request judged by a table that reads.
fn judge_request(table: &[u8], request: Request) -> Result<Verdict, Refusal>
    requires { length (rows_of table.now) ≤ 64 }
    ensures { as_judgement result ≡ judged (columns_of request.entry) (rows_of table.now) }
{
    match request.first_fault() {
        Some(column) => Err(Refusal {
            reason: Reason::FaultyRequest,
            place: column,
        }),
        None => Ok(verdict_of(applying_rows(table, request), allow_rows(table))),
    }
}

/// May this request pass? The table's refusal comes first, then 9 at the lowest faulty column, then the verdict.
pub fn judge(table: &[u8], request: Request) -> Result<Verdict, Refusal>
    ensures { as_judgement result ≡ judgement table.now (columns_of request.entry) }
{
    read(table)?;
    judge_request(table, request)
}
