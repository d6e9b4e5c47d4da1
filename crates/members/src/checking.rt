// The members of a document: the first 21 or 22, by one pass over its tokens.
ghost use Rattle.std.specs.Prelude.{◌≡◌};
ghost use Rattle.members.specs.Answers.{as_checked};
ghost use Rattle.members.specs.Machinery.Levels.{members_of};

use crate::levels::after_token;
use crate::state::State;
use json_text::tokens::{first_mark, tokens_from};
use refusals::Refusal;

/// The first 21 or 22 of a text that has no 20.
pub fn members_fault(text: &[u8]) -> Result<(), Refusal>
    ensures { as_checked result ≡ members_of text.now }
{
    let mut state = State::begin();
    for token in tokens_from(text, first_mark()) {
        match after_token(state, token.event, text, token.at + 1) {
            Ok(next) => state = next,
            Err(reason) => {
                let place = token.at;
                return Err(Refusal { reason, place });
            }
        }
    }
    Ok(())
}
