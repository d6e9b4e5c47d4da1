// Where the reading of a document's wishes stands.
ghost use Rattle.std.specs.Prelude.{◌≡◌};
ghost use Rattle.records.specs.Machinery.Cursors.{element_of};

use crate::conditions::Spot;
use crate::rows::Row;
use crate::values::Hold;
use crate::wishes::Wish;
use json_text::tokens::Mark;
use members::names::RowName;

/// What a statement has behind its effect.
#[derive(Clone, Copy, Debug, PartialEq, Eq)]
pub enum Part {
    /// Principal or NotPrincipal.
    Principal,
    /// Action or NotAction.
    Action,
    /// Resource or NotResource.
    Resource,
    /// Condition, which may be absent.
    Conditions,
}

impl Part {
    /// The element that it is, with the part that comes behind it; the conditions are none.
    pub(crate) fn element(self) -> Option<(RowName, Part)>
        ensures { result ≡ element_of self }
    {
        match self {
            Part::Principal => Some((RowName::Principal, Part::Action)),
            Part::Action => Some((RowName::Action, Part::Resource)),
            Part::Resource => Some((RowName::Resource, Part::Conditions)),
            Part::Conditions => None,
        }
    }
}

/// How far the reading of a document is.
#[derive(Clone, Copy, Debug, PartialEq, Eq)]
pub enum Stage {
    /// Before the document.
    Begin,
    /// Before the value of Statement.
    Rows,
    /// Before a part of a statement.
    Parts(Part),
    /// In the value of an element, with the part that comes behind it.
    Values(Part, Hold),
    /// In the conditions of a statement.
    Conditions(Spot),
    /// Behind the last statement.
    End,
    /// Behind all.
    Over,
}

/// Where the reading of a document stands.
#[derive(Clone, Copy, Debug, PartialEq, Eq)]
pub struct Cursor {
    /// How far it is.
    pub stage: Stage,
    /// The place in the value being read.
    pub here: Mark,
    /// The statement.
    pub row: Row,
}

/// A wish of a document.
#[derive(Clone, Copy, Debug, PartialEq, Eq)]
pub struct Wished {
    /// What is wished for.
    pub wish: Wish,
    /// The place of the value that it comes from.
    pub place: usize,
    /// Where to go on.
    pub cursor: Cursor,
}
