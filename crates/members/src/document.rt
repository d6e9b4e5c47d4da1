// The document and its list of statements: what a token there leads to.
ghost use Rattle.std.specs.Prelude.{◌≡◌, [], drop};
ghost use Rattle.json_text.specs.Machinery.Pieces.{content_of};
ghost use Rattle.members.specs.declared.state.Level.TheVariants as L;
ghost use Rattle.members.specs.Machinery.States.{standing, state_of, as_turn};
ghost use Rattle.members.specs.Machinery.Verdicts.{top_whole};
ghost use Rattle.members.specs.Machinery.Levels.{in_top, in_rows};

use crate::marks::Marks;
use crate::names::TopName;
use crate::state::{Level, State};
use json_text::events::Event;
use json_text::pieces::string_is;
use refusals::Reason;

// Version and Statement were met.
fn top_whole(seen: Marks) -> bool
    ensures { result ≡ top_whole seen.bits }
{
    seen.is_seen(TopName::Version) && seen.is_seen(TopName::Statement)
}

// A token among the document's members. A name: unknown or met before, 21. A string: the one Version. A list or an object: of statements,
// the only one. The closing brace: 22 where something is missing.
#[tactic(auto, unfolding(crate::specs::Members::version_text))]
pub(crate) fn in_top(
    state: State,
    due: Option<TopName>,
    event: Event,
    text: &[u8],
    from: usize,
) -> Result<State, Reason>
    requires { state.level ≡ L.Top due }
    ensures { as_turn result ≡ in_top (standing (L.Top due) state) event (content_of (drop from text.now)) }
{
    let version = matches!(due, Some(TopName::Version));
    match event {
        Event::Name => {
            let (name, top) = state.top.meet(text, from)?;
            Ok(State::in_document(Level::Top(Some(name)), top))
        }
        Event::Text if version && string_is(text, from, b"2012-10-17") => {
            Ok(State::in_document(Level::Top(None), state.top))
        }
        Event::OpenList if !version => Ok(State::in_document(Level::Rows, state.top)),
        Event::OpenObject if !version => Ok(State::in_document(Level::Row(None), state.top)),
        Event::CloseList => Ok(state),
        Event::CloseObject if top_whole(state.top) => Ok(State::begin()),
        _ => Err(Reason::WrongForm),
    }
}

// A token in the list of statements.
pub(crate) fn in_rows(state: State, event: Event) -> Result<State, Reason>
    ensures { as_turn result ≡ in_rows (state_of state) event [] }
{
    match event {
        Event::Name | Event::CloseObject => Ok(state),
        Event::Text | Event::Other | Event::OpenList => Err(Reason::WrongForm),
        Event::CloseList => Ok(State::in_document(Level::Top(None), state.top)),
        Event::OpenObject => Ok(State {
            listed: true,
            ..State::in_document(Level::Row(None), state.top)
        }),
    }
}
