// A statement: what a token among its members leads to.
ghost use Rattle.std.specs.Prelude.{◌≡◌, drop};
ghost use Rattle.json_text.specs.Machinery.Pieces.{content_of};
ghost use Rattle.members.specs.declared.state.Level.TheVariants as L;
ghost use Rattle.members.specs.Machinery.States.{level_of, due_of, standing, as_turn};
ghost use Rattle.members.specs.Machinery.Verdicts.{row_whole};
ghost use Rattle.members.specs.Machinery.Levels.{behind_row, in_row};

use crate::marks::Marks;
use crate::names::RowName;
use crate::state::{Level, State};
use json_text::events::Event;
use json_text::pieces::string_is;
use refusals::Reason;

// Effect, a principal, an action and a resource were met.
fn row_whole(seen: Marks) -> bool
    ensures { result ≡ row_whole seen.bits }
{
    seen.is_seen(RowName::Effect)
        && seen.is_seen(RowName::Principal)
        && seen.is_seen(RowName::Action)
        && seen.is_seen(RowName::Resource)
}

// Where a statement leads back to.
fn behind_row(listed: bool) -> Level
    ensures level { level_of result ≡ behind_row listed }
    ensures due { due_of result ≡ 0 }
{
    if listed {
        Level::Rows
    } else {
        Level::Top(None)
    }
}

// A token among a statement's members. A name: unknown or met before, in its form or its Not-form, 21. A string: any for Sid, Effect,
// actions and resources; `*` alone for a principal. A list: of actions or resources. An object: of a principal or Condition. The closing
// brace: 22 where something is missing.
pub(crate) fn in_row(
    state: State,
    due: Option<RowName>,
    event: Event,
    text: &[u8],
    from: usize,
) -> Result<State, Reason>
    requires { state.level ≡ L.Row due }
    ensures { as_turn result ≡ in_row (standing (L.Row due) state) event (content_of (drop from text.now)) }
{
    match (event, due) {
        (Event::Name, _) => {
            let (name, row) = state.row.meet(text, from)?;
            Ok(state.in_statement(Level::Row(Some(name)), row))
        }
        (Event::Text, Some(RowName::Principal | RowName::NotPrincipal)) => {
            if string_is(text, from, b"*") {
                Ok(state.in_statement(Level::Row(None), state.row))
            } else {
                Err(Reason::WrongForm)
            }
        }
        (Event::Text, Some(RowName::Condition)) => Err(Reason::WrongForm),
        (Event::Text, _) => Ok(state.in_statement(Level::Row(None), state.row)),
        (
            Event::OpenList,
            Some(RowName::Action | RowName::NotAction | RowName::Resource | RowName::NotResource),
        ) => Ok(state.in_statement(Level::RowStrings, state.row)),
        (Event::OpenObject, Some(RowName::Principal | RowName::NotPrincipal)) => {
            Ok(state.in_statement(Level::Principals, state.row))
        }
        (Event::OpenObject, Some(RowName::Condition)) => {
            Ok(state.in_statement(Level::Operators, state.row))
        }
        (Event::CloseList, _) => Ok(state),
        (Event::CloseObject, _) if row_whole(state.row) => {
            Ok(State::in_document(behind_row(state.listed), state.top))
        }
        _ => Err(Reason::WrongForm),
    }
}
