// A condition, its operators and their keys: what a token among them leads to.
ghost use Rattle.std.specs.Prelude.{◌≡◌, drop};
ghost use Rattle.json_text.specs.Machinery.Pieces.{content_of};
ghost use Rattle.members.specs.Machinery.States.{state_of, as_turn};
ghost use Rattle.members.specs.Machinery.Levels.{in_operators, in_keys};

use crate::marks::Marks;
use crate::names::{KeyName, OperatorName};
use crate::state::{Level, State};
use json_text::events::Event;
use refusals::Reason;

// A token among the operators of a condition. A name: no operator, or one met before, 21.
pub(crate) fn in_operators(
    state: State,
    event: Event,
    text: &[u8],
    from: usize,
) -> Result<State, Reason>
    ensures { as_turn result ≡ in_operators (state_of state) event (content_of (drop from text.now)) }
{
    match event {
        Event::Name => {
            let (_, operators) = state.operators.meet::<OperatorName>(text, from)?;
            Ok(state.in_condition(Level::Operators, operators, Marks::NONE))
        }
        Event::CloseList => Ok(state),
        Event::Text | Event::Other | Event::OpenList => Err(Reason::WrongForm),
        Event::OpenObject => Ok(state.in_condition(Level::Keys, state.operators, Marks::NONE)),
        Event::CloseObject => Ok(state.in_statement(Level::Row(None), state.row)),
    }
}

// A token among the keys of an operator. A name: no key, or one met before in whatever case, 21.
pub(crate) fn in_keys(state: State, event: Event, text: &[u8], from: usize) -> Result<State, Reason>
    ensures { as_turn result ≡ in_keys (state_of state) event (content_of (drop from text.now)) }
{
    match event {
        Event::Name => {
            let (_, keys) = state.keys.meet::<KeyName>(text, from)?;
            Ok(state.in_condition(Level::Keys, state.operators, keys))
        }
        Event::CloseList => Ok(state),
        Event::Text => Ok(state.in_condition(Level::Keys, state.operators, state.keys)),
        Event::OpenList => Ok(state.in_condition(Level::KeyStrings, state.operators, state.keys)),
        Event::Other | Event::OpenObject => Err(Reason::WrongForm),
        Event::CloseObject => {
            Ok(state.in_condition(Level::Operators, state.operators, Marks::NONE))
        }
    }
}
