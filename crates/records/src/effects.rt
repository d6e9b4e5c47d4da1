// The effect of a statement.
ghost use Rattle.std.specs.Prelude.{◌≡◌, drop};
ghost use Rattle.json_text.specs.Machinery.Marks.{tokens_at};
ghost use Rattle.json_text.specs.Machinery.Pieces.{content_of};
ghost use Rattle.members.specs.Members.{row_kind, row_slot};
ghost use Rattle.records.specs.Machinery.Walkers.{seek};
ghost use Rattle.records.specs.Machinery.Streams.{effect_on, effect_from};
ghost use Rattle.records.specs.Machinery.Cursors.{effect_said, effect_by, placed_wish};

use crate::walking::seek_member;
use crate::wishes::Wish;
use json_text::events::Event;
use json_text::pieces::string_is;
use json_text::tokens::{Mark, next_token};
use members::names::RowName;
use stored::items::Effect;

/// A wish, and the place of the value that it comes from.
#[derive(Clone, Copy, Debug, PartialEq, Eq)]
pub struct Placed {
    /// What is wished for.
    pub wish: Wish,
    /// The place of the value that it comes from.
    pub place: usize,
}

// What the string that begins at a place says.
#[tactic(auto, unfolding(crate::specs::Documents::allow_text, crate::specs::Documents::deny_text))]
fn effect_said(text: &[u8], from: usize) -> Wish
    ensures { result ≡ effect_said (content_of (drop from text.now)) }
{
    if string_is(text, from, b"Allow") {
        Wish::Statement(Effect::Allow)
    } else if string_is(text, from, b"Deny") {
        Wish::Statement(Effect::Deny)
    } else {
        Wish::Strange
    }
}

fn effect_by(event: Event, text: &[u8], from: usize) -> Wish
    ensures { result ≡ effect_by event (content_of (drop from text.now)) }
{
    match event {
        Event::Text => effect_said(text, from),
        _ => Wish::Strange,
    }
}

fn effect_on(text: &[u8], value: Mark) -> Placed
    ensures { effect_on (tokens_at text.now value) ≡ placed_wish text.now result }
{
    match next_token(text, value) {
        Some(token) => Placed {
            wish: effect_by(token.event, text, token.at + 1),
            place: token.at,
        },
        None => Placed {
            wish: Wish::Strange,
            place: text.len(),
        },
    }
}

// The effect among the members from a place on.
pub(crate) fn effect_of(text: &[u8], members: Mark) -> Placed
    ensures { effect_from (seek row_kind row_slot 2 (tokens_at text.now members) 0) ≡ placed_wish text.now result }
{
    match seek_member(text, members, RowName::Effect) {
        Some(effect) => effect_on(text, effect.value),
        None => Placed {
            wish: Wish::Strange,
            place: text.len(),
        },
    }
}
