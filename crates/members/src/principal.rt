// The object of a principal: what a token among its members leads to.
ghost use Rattle.std.specs.Prelude.{◌≡◌, drop};
ghost use Rattle.json_text.specs.Machinery.Pieces.{content_of};
ghost use Rattle.members.specs.Machinery.States.{state_of, as_turn};
ghost use Rattle.members.specs.Machinery.Levels.{in_principals};

use crate::names::AwsName;
use crate::state::{Level, State};
use json_text::events::Event;
use refusals::Reason;

// A token among the members of a principal. A name: unknown or met before, 21. The closing brace: 22 where AWS is missing.
pub(crate) fn in_principals(
    state: State,
    event: Event,
    text: &[u8],
    from: usize,
) -> Result<State, Reason>
    ensures { as_turn result ≡ in_principals (state_of state) event (content_of (drop from text.now)) }
{
    match event {
        Event::Name => {
            let (_, principals) = state.principals.meet::<AwsName>(text, from)?;
            Ok(state.in_principal(Level::Principals, principals))
        }
        Event::Text => Ok(state.in_principal(Level::Principals, state.principals)),
        Event::OpenList => Ok(state.in_principal(Level::PrincipalStrings, state.principals)),
        Event::CloseList => Ok(state),
        Event::CloseObject if state.principals.is_seen(AwsName::Aws) => {
            Ok(state.in_statement(Level::Row(None), state.row))
        }
        Event::Other | Event::OpenObject | Event::CloseObject => Err(Reason::WrongForm),
    }
}
