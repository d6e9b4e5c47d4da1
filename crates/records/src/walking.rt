// Walks over the tokens of a document: to the value of a member.
ghost use Rattle.std.specs.Prelude.{◌≡◌, ◌<◌, ◌-◌, suc, Some, drop, length};
ghost use Rattle.json_text.specs.Machinery.Pieces.{content_of};
ghost use Rattle.json_text.specs.Machinery.Marks.{tokens_at};
ghost use Rattle.json_text.specs.declared.events.Event.TheVariants as E;
ghost use Rattle.records.specs.Machinery.Walkers.{next_place, moved_of, seek_turn, seek, told};

use json_text::events::Event;
use json_text::tokens::{Mark, next_token, tokens_from};
use members::names::Name;
use std::ops::ControlFlow;

/// A member of an object.
#[derive(Clone, Copy, Debug, PartialEq, Eq)]
pub struct Member<N> {
    /// Its name.
    pub name: N,
    /// The place behind the name's first byte.
    pub value: Mark,
}

// The place of the next token; the text's end where there is none.
pub(crate) fn place_from(text: &[u8], from: Mark) -> usize
    ensures { next_place (tokens_at text.now from) ≡ length text.now - result }
{
    next_token(text, from).map_or(text.len(), |token| token.at)
}

// A name: the member sought, or so many brackets inside the object.
fn at_name<N: Name>(like: N, depth: usize, text: &[u8], from: usize) -> ControlFlow<N, usize>
    ensures { moved_of N.index (Some result) ≡ seek_turn N.kind_of N.slot_of (N.slot_of (suc (N.index like))) depth E.Name (content_of (drop from text.now)) }
{
    // What is named deeper inside is no member of this object, and not read.
    if depth != 0 {
        return ControlFlow::Continue(depth);
    }
    match N::named(text, from) {
        Some(name) => {
            if name.slot() == like.slot() {
                ControlFlow::Break(name)
            } else {
                ControlFlow::Continue(depth)
            }
        }
        None => ControlFlow::Continue(depth),
    }
}

// One token: the member sought, or so many brackets inside the object; nothing where the object ends.
fn seek_turn<N: Name>(
    like: N,
    depth: usize,
    event: Event,
    text: &[u8],
    from: usize,
) -> Option<ControlFlow<N, usize>>
    requires { depth < 18446744073709551615 }
    ensures { moved_of N.index result ≡ seek_turn N.kind_of N.slot_of (N.slot_of (suc (N.index like))) depth event (content_of (drop from text.now)) }
{
    match event {
        Event::Name => Some(at_name(like, depth, text, from)),
        Event::Text | Event::Other => Some(ControlFlow::Continue(depth)),
        Event::OpenList | Event::OpenObject => Some(ControlFlow::Continue(depth + 1)),
        Event::CloseList | Event::CloseObject => {
            if depth == 0 {
                None
            } else {
                Some(ControlFlow::Continue(depth - 1))
            }
        }
    }
}

// The first member that counts as a name does, among those from a place on.
pub(crate) fn seek_member<N: Name>(text: &[u8], from: Mark, like: N) -> Option<Member<N>>
    ensures { told N.index text.now result ≡ seek N.kind_of N.slot_of (N.slot_of (suc (N.index like))) (tokens_at text.now from) 0 }
{
    let mut depth: usize = 0;
    for token in tokens_from(text, from) {
        match seek_turn(like, depth, token.event, text, token.at + 1)? {
            ControlFlow::Continue(further) => depth = further,
            ControlFlow::Break(name) => {
                let value = token.behind;
                return Some(Member { name, value });
            }
        }
    }
    None
}
