// A text by its tokens: the next one from a place on, and all of them.
ghost use Rattle.std.specs.Prelude.{◌≡◌, length};
ghost use Rattle.json_text.specs.Machinery.Marks.{start_mark, tokens_at, met_tokens, Ahead};
ghost use Rattle.json_text.specs.Machinery.TokensLeft.{walked, reached};

use crate::events::{Event, event_of};
use crate::machine::{State, start, step};
use crate::runs::run_of;

/// Where a walk over a text stands.
#[derive(Clone, Copy, Debug, PartialEq, Eq)]
pub struct Mark {
    /// The place in the text.
    pub at: usize,
    /// The machine's state there.
    pub state: State,
}

/// A token of a text.
#[derive(Clone, Copy, Debug, PartialEq, Eq)]
pub struct Token {
    /// What begins or ends.
    pub event: Event,
    /// Its place.
    pub at: usize,
    /// Where to go on: behind its first byte.
    pub behind: Mark,
}

/// The beginning of a text.
pub fn first_mark() -> Mark
    ensures { result ≡ start_mark }
{
    Mark {
        at: 0,
        state: start(),
    }
}

/// The next token from a place on. In a text with a fault there is none behind the byte that fails.
pub fn next_token(text: &[u8], from: Mark) -> Option<Token>
    ensures tokens { tokens_at text.now from ≡ met_tokens text.now result }
    ensures ahead { Ahead from.at (length text.now) result }
{
    let mut state = from.state;
    let mut at = from.at;
    // stays: no plainer, since the state says how far a step goes
    while at < text.len() {
        let byte = text[at];
        let next = step(state, byte);
        if let Some(event) = event_of(state.phase, byte) {
            let behind = match next {
                Some(state) => Mark { at: at + 1, state },
                None => Mark {
                    at: text.len(),
                    state: start(),
                },
            };
            return Some(Token { event, at, behind });
        }
        state = next?;
        at += 1;
        at += run_of(&text[at..], state.phase);
    }
    None
}

/// The tokens of a text from a place on.
#[derive(Clone, Copy, Debug)]
pub struct Tokens<'a> {
    text: &'a [u8],
    here: Mark,
}

/// All tokens from a place on.
pub fn tokens_from(text: &[u8], from: Mark) -> Tokens
    ensures text { walked result ≡ text.now }
    ensures place { reached result ≡ from }
{
    Tokens { text, here: from }
}

impl<'a> Iterator for Tokens<'a> {
    ghost use Rattle.std.specs.Prelude.{◌-◌, length};
    ghost use Rattle.std.specs.Iterator.{at_most};
    ghost use Rattle.json_text.specs.Machinery.TokensLeft.{walked, reached, GivesToken};

    type Item = Token;

    ghost next_gives = { GivesToken };

    ghost remaining = { λ s. at_most (length (walked s) - (reached s).at) };

    #[inline(always)]
    fn next(&mut self) -> Option<Token> {
        let token = next_token(self.text, self.here)?;
        self.here = token.behind;
        Some(token)
    }
}
