// The strings of an element, one after the other.
ghost use Rattle.std.specs.Prelude.{◌≡◌, List};
ghost use Rattle.json_text.specs.Machinery.Marks.{tokens_at};
ghost use Rattle.stored.specs.declared.items.Sort.TheVariants as S;
ghost use Rattle.records.specs.Wishes as Wishes;
ghost use Rattle.records.specs.Machinery.Streams.{values_from};
ghost use Rattle.records.specs.Machinery.Cursors.{hold_of, hold_turn, strings_left};

use json_text::events::Event;
use json_text::tokens::{Mark, tokens_from};

/// The list of strings at hand.
#[derive(Clone, Copy, Debug, PartialEq, Eq)]
pub enum Hold {
    /// None is open.
    Outside,
    /// One that began at a place is still empty.
    Fresh(usize),
    /// One has a string.
    Filled,
}

/// What a token of an element's value says.
#[derive(Clone, Copy, Debug, PartialEq, Eq)]
pub enum Heard {
    /// No string; the list then.
    On(Hold),
    /// A string that stands alone.
    Alone,
    /// A string in a list.
    Listed,
    /// The end of a list that has none.
    Empty(usize),
}

/// The next of an element's strings, or that it has none.
#[derive(Clone, Copy, Debug, PartialEq, Eq)]
pub enum Strings {
    /// The place of a string in a list, and where to go on.
    Listed(usize, Mark),
    /// The place of a string that stands alone.
    Alone(usize),
    /// The place of an empty list.
    Empty(usize),
}

fn hold_turn(hold: Hold, event: Event, at: usize) -> Option<Heard>
    ensures { result ≡ hold_turn hold event at }
{
    match (event, hold) {
        (Event::Name | Event::OpenObject, _) => Some(Heard::On(hold)),
        (Event::OpenList, _) => Some(Heard::On(Hold::Fresh(at))),
        (Event::Text, Hold::Outside) => Some(Heard::Alone),
        (Event::Text, Hold::Fresh(_) | Hold::Filled) => Some(Heard::Listed),
        (Event::CloseList, Hold::Fresh(place)) => Some(Heard::Empty(place)),
        (Event::CloseList, Hold::Outside | Hold::Filled) => None,
        (Event::Other | Event::CloseObject, _) => None,
    }
}

// The next string of a value, from a place in it on.
pub(crate) fn next_string(text: &[u8], from: Mark, start: Hold) -> Option<Strings>
    ensures { (behind : List Wishes.Wish) → values_from S.Text behind (tokens_at text.now from) (hold_of text.now start) ≡ strings_left text.now behind result }
{
    let mut hold = start;
    for token in tokens_from(text, from) {
        match hold_turn(hold, token.event, token.at)? {
            Heard::On(further) => hold = further,
            Heard::Alone => return Some(Strings::Alone(token.at)),
            Heard::Listed => return Some(Strings::Listed(token.at, token.behind)),
            Heard::Empty(place) => return Some(Strings::Empty(place)),
        }
    }
    None
}
