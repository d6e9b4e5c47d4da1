// The wishes of a document, one a call, in the order of the table.
ghost use Rattle.std.specs.Prelude.{◌≡◌, suc, length};
ghost use Rattle.json_text.specs.Machinery.Marks.{tokens_at};
ghost use Rattle.stored.specs.declared.items.Sort.TheVariants as S;
ghost use Rattle.members.specs.Members.{top_kind, itself};
ghost use Rattle.members.specs.Names.{index_of_row};
ghost use Rattle.records.specs.Machinery.Walkers.{seek};
ghost use Rattle.records.specs.Machinery.Rows.{AtMost, among_of};
ghost use Rattle.records.specs.Machinery.Streams.{values_from, conditions_from, row_from, rows_from, statement_from, document_from};
ghost use Rattle.records.specs.Machinery.Cursors.{hold_of, spot_of, last, behind_row, column_from, conditions_left, part_left, first_cursor, wishes_left, wished_left, next_wishes, Inside};
ghost use Rattle.records.specs.Machinery.WishesLeft.{looked_at, wishes_ahead};

use crate::conditions::{Spot, next_condition};
use crate::effects::effect_of;
use crate::rows::{Among, Row, count_rows, next_row};
use crate::stages::{Cursor, Part, Stage, Wished};
use crate::values::{Hold, Strings, next_string};
use crate::walking::{Member, place_from, seek_member};
use crate::wishes::{Wish, column_at};
use json_text::events::Event;
use json_text::tokens::{Mark, first_mark, next_token};
use members::names::{RowName, TopName};

/// The beginning of a document.
pub fn first() -> Cursor
    ensures { result ≡ first_cursor }
{
    let here = first_mark();
    Cursor {
        stage: Stage::Begin,
        here,
        row: Row {
            members: here,
            listed: false,
        },
    }
}

fn end(text: &[u8], row: Row) -> Wished
    ensures { last ≡ wished_left text.now result }
{
    Wished {
        wish: Wish::End,
        place: text.len(),
        cursor: Cursor {
            stage: Stage::Over,
            here: row.members,
            row,
        },
    }
}

// A statement begins: its effect.
fn statement(text: &[u8], row: Row) -> Wished
    ensures { row_from (tokens_at text.now row.members) (behind_row text.now row) ≡ wished_left text.now result }
{
    let effect = effect_of(text, row.members);
    Wished {
        wish: effect.wish,
        place: effect.place,
        cursor: Cursor {
            stage: Stage::Parts(Part::Principal),
            here: row.members,
            row,
        },
    }
}

// The next statement, or the end.
fn rows(text: &[u8], from: Mark, among: Among, row: Row) -> Wished
    requires { AtMost from.at among }
    ensures { rows_from last (tokens_at text.now from) (among_of among) ≡ wished_left text.now result }
{
    match next_row(text, from, among) {
        Some(next) => statement(text, next),
        None => end(text, row),
    }
}

fn after_row(text: &[u8], row: Row) -> Wished
    ensures { behind_row text.now row ≡ wished_left text.now result }
{
    if row.listed {
        rows(text, row.members, Among::Within(0), row)
    } else {
        end(text, row)
    }
}

fn conditions_at(text: &[u8], here: Mark, spot: Spot, row: Row) -> Wished
    ensures { conditions_from (behind_row text.now row) (tokens_at text.now here) (spot_of text.now spot) ≡ wished_left text.now result }
{
    match next_condition(text, here, spot) {
        Some(said) => Wished {
            wish: said.wish,
            place: said.place,
            cursor: Cursor {
                stage: Stage::Conditions(said.spot),
                here: said.here,
                row,
            },
        },
        None => after_row(text, row),
    }
}

fn conditions(text: &[u8], row: Row) -> Wished
    ensures { conditions_left text.now row ≡ wished_left text.now result }
{
    match seek_member(text, row.members, RowName::Condition) {
        Some(member) => conditions_at(text, member.value, Spot::Before, row),
        None => after_row(text, row),
    }
}

// An element begins: its column, with the part that comes behind its values.
fn column(text: &[u8], element: Member<RowName>, row: Row, part: Part) -> Wished
    ensures { column_from (suc (index_of_row element.name)) (tokens_at text.now element.value) (part_left text.now row part) ≡ wished_left text.now result }
{
    Wished {
        wish: Wish::Column(column_at(element.name)),
        place: place_from(text, element.value),
        cursor: Cursor {
            stage: Stage::Values(part, Hold::Outside),
            here: element.value,
            row,
        },
    }
}

// The next part of a statement that it has.
fn parts(text: &[u8], row: Row, from: Part) -> Wished
    ensures { part_left text.now row from ≡ wished_left text.now result }
{
    let mut part = from;
    // stays: no plainer: a part says which one comes behind it
    while let Some((like, behind)) = part.element() {
        if let Some(element) = seek_member(text, row.members, like) {
            return column(text, element, row, behind);
        }
        part = behind;
    }
    conditions(text, row)
}

fn values(text: &[u8], here: Mark, hold: Hold, row: Row, part: Part) -> Wished
    ensures { values_from S.Text (part_left text.now row part) (tokens_at text.now here) (hold_of text.now hold) ≡ wished_left text.now result }
{
    let Some(strings) = next_string(text, here, hold) else {
        return parts(text, row, part);
    };
    let behind = Stage::Parts(part);
    let (wish, place, stage, here) = match strings {
        Strings::Listed(place, on) => (Wish::Value, place, Stage::Values(part, Hold::Filled), on),
        Strings::Alone(place) => (Wish::Value, place, behind, here),
        Strings::Empty(place) => (Wish::Empty, place, behind, here),
    };
    let cursor = Cursor { stage, here, row };
    Wished {
        wish,
        place,
        cursor,
    }
}

// The number of statements, among the members of the document.
fn start(text: &[u8], members: Mark) -> Wished
    ensures { statement_from (seek top_kind itself 2 (tokens_at text.now members) 0) ≡ wished_left text.now result }
{
    let row = Row {
        members,
        listed: false,
    };
    match seek_member(text, members, TopName::Statement) {
        Some(statement) => Wished {
            wish: Wish::Start(count_rows(text, statement.value)),
            place: place_from(text, statement.value),
            cursor: Cursor {
                stage: Stage::Rows,
                here: statement.value,
                row,
            },
        },
        None => Wished {
            wish: Wish::Start(0),
            place: text.len(),
            cursor: Cursor {
                stage: Stage::End,
                here: members,
                row,
            },
        },
    }
}

// A document is an object.
fn document(text: &[u8], from: Mark) -> Option<Wished>
    ensures { document_from (tokens_at text.now from) ≡ next_wishes text.now result }
{
    let token = next_token(text, from)?;
    match token.event {
        Event::OpenObject => Some(start(text, token.behind)),
        _ => None,
    }
}

fn wish_at(text: &[u8], cursor: Cursor) -> Option<Wished>
    ensures { wishes_left text.now cursor ≡ next_wishes text.now result }
{
    let Cursor { stage, here, row } = cursor;
    match stage {
        Stage::Begin => document(text, here),
        Stage::Rows => Some(rows(text, here, Among::Begin, row)),
        Stage::Parts(part) => Some(parts(text, row, part)),
        Stage::Values(part, hold) => Some(values(text, here, hold, row, part)),
        Stage::Conditions(spot) => Some(conditions_at(text, here, spot, row)),
        Stage::End => Some(end(text, row)),
        Stage::Over => None,
    }
}

/// The next wish. No wish has a place behind the text, whatever the cursor holds.
pub fn next(text: &[u8], cursor: Cursor) -> Option<Wished>
    ensures wishes { wishes_left text.now cursor ≡ next_wishes text.now result }
    ensures inside { Inside (length text.now) result }
{
    let wished = wish_at(text, cursor)?;
    Some(Wished {
        place: wished.place.min(text.len()),
        ..wished
    })
}

/// The wishes of a document that are still to come.
#[derive(Clone, Copy, Debug)]
pub struct Wishes<'a> {
    text: &'a [u8],
    cursor: Cursor,
}

/// All wishes of a document.
pub fn wishes_of(text: &[u8]) -> Wishes
    ensures text { looked_at result ≡ text.now }
    ensures all { wishes_ahead result ≡ wishes_left text.now first_cursor }
{
    Wishes {
        text,
        cursor: first(),
    }
}

impl<'a> Iterator for Wishes<'a> {
    ghost use Rattle.std.specs.Iterator.{item_count};
    ghost use Rattle.records.specs.Machinery.WishesLeft.{wishes_ahead, GivesWish};

    type Item = Wished;

    ghost next_gives = { GivesWish };

    ghost remaining = { item_count wishes_ahead };

    #[inline(always)]
    fn next(&mut self) -> Option<Wished> {
        let wished = next(self.text, self.cursor)?;
        self.cursor = wished.cursor;
        Some(wished)
    }
}
