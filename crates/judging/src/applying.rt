// The rows of a table that apply to a request, by one walk over the records: each list is matched against its own column.
ghost use Rattle.std.specs.Prelude.{◌≡◌, ◌≤◌, length};
ghost use Rattle.judging.specs.Requests.{columns_of};
ghost use Rattle.judging.specs.Meaning.{applies};
ghost use Rattle.judging.specs.Machinery.Rows.{rows_word};
ghost use Rattle.judging.specs.Judging.{rows_of};

use crate::gathering::gathered_rows;
use crate::request::Request;

/// The rows of a table that apply to a request.
#[tactic(auto, unfolding(crate::specs::Meaning::applies))]
pub fn applying_rows(table: &[u8], request: Request) -> u64
    requires { length (rows_of table.now) ≤ 64 }
    ensures { result ≡ rows_word (applies (columns_of request.entry)) (rows_of table.now) }
{
    gathered_rows(table, false, &request)
}
