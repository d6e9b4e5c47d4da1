// One token of a document that has no 20: what it leads to, by the level at which it stands.
ghost use Rattle.std.specs.Prelude.{◌≡◌, [], drop};
ghost use Rattle.json_text.specs.Machinery.Pieces.{content_of};
ghost use Rattle.members.specs.Machinery.States.{level_of, due_of, state_of, as_turn};
ghost use Rattle.members.specs.Machinery.Levels.{outside, in_strings, turn_in};

use crate::condition::{in_keys, in_operators};
use crate::document::{in_rows, in_top};
use crate::marks::Marks;
use crate::principal::in_principals;
use crate::state::{Level, State};
use crate::statement::in_row;
use json_text::events::Event;
use refusals::Reason;

// A token before the document: it is an object, or 22.
fn outside(state: State, event: Event) -> Result<State, Reason>
    ensures { as_turn result ≡ outside (state_of state) event [] }
{
    match event {
        Event::Name | Event::CloseList | Event::CloseObject => Ok(state),
        Event::Text | Event::Other | Event::OpenList => Err(Reason::WrongForm),
        Event::OpenObject => Ok(State::in_document(Level::Top(None), Marks::NONE)),
    }
}

// A token in a list of strings, behind which a level goes on.
fn in_strings(back: Level, state: State, event: Event) -> Result<State, Reason>
    requires { due_of back ≡ 0 }
    ensures { as_turn result ≡ in_strings (level_of back) (state_of state) event [] }
{
    match event {
        Event::Name | Event::Text | Event::CloseObject => Ok(state),
        Event::Other | Event::OpenList | Event::OpenObject => Err(Reason::WrongForm),
        Event::CloseList => Ok(State {
            level: back,
            ..state
        }),
    }
}

// Any token; `from` is the place behind its first byte, where the bytes of a string begin.
pub(crate) fn after_token(
    state: State,
    event: Event,
    text: &[u8],
    from: usize,
) -> Result<State, Reason>
    ensures { as_turn result ≡ turn_in (level_of state.level) (state_of state) event (content_of (drop from text.now)) }
{
    match state.level {
        Level::Outside => outside(state, event),
        Level::Top(due) => in_top(state, due, event, text, from),
        Level::Rows => in_rows(state, event),
        Level::Row(due) => in_row(state, due, event, text, from),
        Level::RowStrings => in_strings(Level::Row(None), state, event),
        Level::Principals => in_principals(state, event, text, from),
        Level::PrincipalStrings => in_strings(Level::Principals, state, event),
        Level::Operators => in_operators(state, event, text, from),
        Level::Keys => in_keys(state, event, text, from),
        Level::KeyStrings => in_strings(Level::Keys, state, event),
    }
}
