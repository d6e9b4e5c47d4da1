// The conditions of a statement, one after the other.
ghost use Rattle.std.specs.Prelude.{◌≡◌, List, drop};
ghost use Rattle.json_text.specs.Machinery.Marks.{tokens_at};
ghost use Rattle.json_text.specs.Machinery.Pieces.{content_of};
ghost use Rattle.records.specs.Wishes as Wishes;
ghost use Rattle.records.specs.Machinery.Streams.{conditions_from};
ghost use Rattle.records.specs.Machinery.Cursors.{spot_of, spot_turn, said_left};

use crate::wishes::{Wish, key_at, operator_at, string_kind};
use json_text::events::Event;
use json_text::tokens::{Mark, next_token};
use members::names::{key_name, operator_name};
use stored::items::{Key, Operator};

/// Where the reading of conditions stands.
#[derive(Clone, Copy, Debug, PartialEq, Eq)]
pub enum Spot {
    /// Before the value of Condition.
    Before,
    /// Among its operators.
    Operators,
    /// Behind an operator's name.
    Operator(Operator),
    /// Among an operator's keys.
    Keys(Operator),
    /// Behind a key's name.
    Key(Operator, Key),
    /// Before the value of a condition that was wished for.
    Value(Operator),
    /// In its list, empty since a place.
    EmptyList(Operator, usize),
    /// In its list, which has a string.
    FilledList(Operator),
}

/// What a token of a condition leads to.
#[derive(Clone, Copy, Debug, PartialEq, Eq)]
pub enum Turned {
    /// Nothing is wished for; the spot behind it.
    On(Spot),
    /// A condition, wished for before its value is read.
    Waits(Operator, Key),
    /// A string under an operator, and the spot behind it.
    Text(Operator, Spot),
    /// The place of an empty list, and the spot behind it.
    Empty(usize, Spot),
}

/// A wish, its place, and where to go on.
#[derive(Clone, Copy, Debug, PartialEq, Eq)]
pub struct Said {
    /// What is wished for.
    pub wish: Wish,
    /// The place of the value that it comes from.
    pub place: usize,
    /// The place where to go on.
    pub here: Mark,
    /// The spot there.
    pub spot: Spot,
}

fn spot_turn(spot: Spot, event: Event, text: &[u8], at: usize, from: usize) -> Option<Turned>
    ensures { result ≡ spot_turn spot event at (content_of (drop from text.now)) }
{
    match (spot, event) {
        (Spot::Before, Event::OpenObject) => Some(Turned::On(Spot::Operators)),
        (Spot::Operators, Event::Name) => {
            let operator = operator_at(operator_name(text, from));
            Some(Turned::On(Spot::Operator(operator)))
        }
        (Spot::Operator(operator), Event::OpenObject) => Some(Turned::On(Spot::Keys(operator))),
        (Spot::Keys(operator), Event::Name) => {
            let key = key_at(key_name(text, from));
            Some(Turned::On(Spot::Key(operator, key)))
        }
        (Spot::Keys(_), Event::CloseObject) => Some(Turned::On(Spot::Operators)),
        (Spot::Key(operator, key), Event::Text | Event::OpenList) => {
            Some(Turned::Waits(operator, key))
        }
        (Spot::Value(operator), Event::Text) => {
            Some(Turned::Text(operator, Spot::Keys(operator)))
        }
        (Spot::Value(operator), Event::OpenList) => {
            Some(Turned::On(Spot::EmptyList(operator, at)))
        }
        (Spot::EmptyList(operator, _) | Spot::FilledList(operator), Event::Text) => {
            Some(Turned::Text(operator, Spot::FilledList(operator)))
        }
        (Spot::EmptyList(operator, place), Event::CloseList) => {
            Some(Turned::Empty(place, Spot::Keys(operator)))
        }
        (Spot::FilledList(operator), Event::CloseList) => Some(Turned::On(Spot::Keys(operator))),
        _ => None,
    }
}

// The next wish of conditions, from a place in them on.
pub(crate) fn next_condition(text: &[u8], from: Mark, start: Spot) -> Option<Said>
    ensures { (behind : List Wishes.Wish) → conditions_from behind (tokens_at text.now from) (spot_of text.now start) ≡ said_left text.now behind result }
{
    let mut here = from;
    let mut spot = start;
    // stays: no plainer as a `for` over the tokens, since a wish whose value is read later goes on before its token, which the iterator has passed
    while let Some(token) = next_token(text, here) {
        let place = token.at;
        let behind = token.behind;
        match spot_turn(spot, token.event, text, place, place + 1)? {
            Turned::On(further) => spot = further,
            // The value is read behind the wish: the next walk begins here again.
            Turned::Waits(operator, key) => {
                return Some(Said {
                    wish: Wish::Condition(operator, key),
                    place,
                    here,
                    spot: Spot::Value(operator),
                });
            }
            Turned::Text(operator, spot) => {
                return Some(Said {
                    wish: string_kind(operator),
                    place,
                    here: behind,
                    spot,
                });
            }
            Turned::Empty(place, spot) => {
                return Some(Said {
                    wish: Wish::Empty,
                    place,
                    here: behind,
                    spot,
                });
            }
        }
        here = behind;
    }
    None
}
