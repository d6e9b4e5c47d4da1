// The statements of a document: the next one, and how many they are.
ghost use Rattle.std.specs.Prelude.{◌≡◌, length};
ghost use Rattle.json_text.specs.Machinery.Marks.{tokens_at};
ghost use Rattle.records.specs.Machinery.Streams.{count_from};
ghost use Rattle.records.specs.Machinery.Streams.Among.{begin};
ghost use Rattle.records.specs.Machinery.Rows.{AtMost, among_turn, row_in, sighted, RowAhead};

use json_text::events::Event;
use json_text::tokens::{Mark, tokens_from};
use std::ops::ControlFlow;

/// Where a walk over the statements stands.
#[derive(Clone, Copy, Debug, PartialEq, Eq)]
pub enum Among {
    /// Before the value of Statement.
    Begin,
    /// Between the statements of its list.
    Between,
    /// So many brackets inside one of them.
    Within(usize),
}

/// A statement.
#[derive(Clone, Copy, Debug, PartialEq, Eq)]
pub struct Row {
    /// The place behind its brace, where its members begin.
    pub members: Mark,
    /// It stands in a list.
    pub listed: bool,
}

// One token: a statement begins, and whether it stands in a list, or the walk goes on; nothing where the value ends.
fn among_turn(among: Among, event: Event) -> Option<ControlFlow<bool, Among>>
    requires { AtMost 18446744073709551614 among }
    ensures { result ≡ among_turn among event }
{
    match (among, event) {
        (_, Event::Name | Event::Text | Event::Other) => Some(ControlFlow::Continue(among)),
        (Among::Begin, Event::OpenList) => Some(ControlFlow::Continue(Among::Between)),
        (Among::Begin, Event::OpenObject) => Some(ControlFlow::Break(false)),
        (Among::Between, Event::OpenList) => Some(ControlFlow::Continue(Among::Within(0))),
        (Among::Between, Event::OpenObject) => Some(ControlFlow::Break(true)),
        (Among::Within(depth), Event::OpenList | Event::OpenObject) => {
            Some(ControlFlow::Continue(Among::Within(depth + 1)))
        }
        (Among::Within(0), Event::CloseList | Event::CloseObject) => {
            Some(ControlFlow::Continue(Among::Between))
        }
        (Among::Within(depth), Event::CloseList | Event::CloseObject) => {
            Some(ControlFlow::Continue(Among::Within(depth - 1)))
        }
        (Among::Begin | Among::Between, Event::CloseList | Event::CloseObject) => None,
    }
}

// The next statement from a place on.
pub(crate) fn next_row(text: &[u8], from: Mark, start: Among) -> Option<Row>
    requires { AtMost from.at start }
    ensures row { sighted text.now result ≡ row_in (tokens_at text.now from) start }
    ensures ahead { RowAhead from.at (length text.now) result }
{
    let mut among = start;
    for token in tokens_from(text, from) {
        match among_turn(among, token.event)? {
            ControlFlow::Continue(further) => among = further,
            ControlFlow::Break(listed) => {
                let members = token.behind;
                return Some(Row { members, listed });
            }
        }
    }
    None
}

// The number of statements in the value from a place on.
pub(crate) fn count_rows(text: &[u8], from: Mark) -> usize
    ensures { result ≡ count_from (tokens_at text.now from) begin }
{
    let mut here = from;
    let mut among = Among::Begin;
    let mut count: usize = 0;
    // stays: no plainer: a statement says from where, and as what, the next one is looked for
    while let Some(row) = next_row(text, here, among) {
        count += 1;
        if row.listed {
            here = row.members;
            among = Among::Within(0);
        } else {
            return count;
        }
    }
    count
}
