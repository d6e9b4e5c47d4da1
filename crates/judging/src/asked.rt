// What a walk asks of the lists of a table: in which columns it looks at them, and what such a column holds.
ghost use Rattle.std.specs.Prelude.{◌≡◌, ℕ, Bool, eqb};
ghost use Rattle.judging.specs.Requests.{Value, column_of, columns_of, value_of};
ghost use Rattle.judging.specs.Machinery.Walk.{every_column};

use crate::request::{Request, Value};

pub(crate) trait Asked {
    ghost watched: { Self → ℕ → Bool };

    ghost held: { Self → ℕ → Value };

    // A list in this column is looked at.
    fn watches(&self, column: usize) -> bool
        ensures { result ≡ watched self.now column };

    // What a column holds.
    fn holds(&self, column: usize) -> Value<'_>
        ensures { value_of result ≡ held self.now column };
}

// Every column of a request.
impl<'a> Asked for Request<'a> {
    ghost watched = { λ request. every_column };

    ghost held = { λ request. column_of (columns_of request) };

    fn watches(&self, _column: usize) -> bool {
        true
    }

    fn holds(&self, column: usize) -> Value<'_> {
        self.value(column)
    }
}

// A column alone.
#[derive(Clone, Copy)]
pub(crate) struct InColumn<'a> {
    pub column: usize,
    pub value: Value<'a>,
}

impl<'a> Asked for InColumn<'a> {
    ghost watched = { λ asked column. eqb column asked.column };

    ghost held = { λ asked column. value_of asked.value };

    fn watches(&self, column: usize) -> bool {
        column == self.column
    }

    fn holds(&self, _column: usize) -> Value<'_> {
        self.value
    }
}
