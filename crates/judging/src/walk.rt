// One walk over the records of a table, which gathers the rows that hold in a column for a value, in moves on a small state: a
// statement begins, a list opens, a listed value was seen.

use matching::reading::Reading;

/// What is known of the rows behind the records passed.
#[derive(Clone, Copy, Debug, PartialEq, Eq)]
pub struct Walk {
    /// The bit of the row at hand.
    pub bit: u64,
    /// The bit of the next one.
    pub next: u64,
    /// The rows before it that hold.
    pub set: u64,
    /// The row at hand holds as far as its lists before the last go.
    pub holds: bool,
    /// The last list opened is in this column.
    pub here: bool,
    /// Its sense.
    pub negated: bool,
    /// Some value of it matched.
    pub some: bool,
    /// How it is read.
    pub reading: Reading,
}

impl Walk {
    ghost use Rattle.std.specs.Prelude.{◌≡◌};
    ghost use Rattle.judging.specs.Machinery.Walk.{fresh_walk, closed_of, done_of, began_of, opened_of, matters_of, seen_of, condition_of};

    // Before the first statement.
    pub(crate) fn fresh() -> Walk
        ensures { result ≡ fresh_walk }
    {
        Walk {
            bit: 0,
            next: 1,
            set: 0,
            holds: false,
            here: false,
            negated: false,
            some: false,
            reading: Reading::Literal,
        }
    }

    // The row at hand holds, its last list closed.
    fn closed(self) -> bool
        ensures { result ≡ closed_of self }
    {
        self.holds && (!self.here || self.some != self.negated)
    }

    // The rows gathered, the row at hand closed.
    pub(crate) fn done(self) -> u64
        ensures { result ≡ done_of self }
    {
        if self.closed() {
            self.set | self.bit
        } else {
            self.set
        }
    }

    // A statement begins, which counts or not.
    pub(crate) fn began(self, counts: bool) -> Walk
        ensures { result ≡ began_of counts self }
    {
        Walk {
            bit: self.next,
            next: self.next << 1,
            set: self.done(),
            holds: counts,
            ..Walk::fresh()
        }
    }

    // A list opens, in this column or not; ok: what is known of it already.
    pub(crate) fn opened(self, here: bool, ok: bool, negated: bool, reading: Reading) -> Walk
        ensures { result ≡ opened_of here ok negated reading self }
    {
        Walk {
            holds: self.closed() && ok,
            here,
            negated,
            some: false,
            reading,
            ..self
        }
    }

    // A condition opens: of an absent key the operator table has decided already.
    pub(crate) fn condition_opened(
        self,
        here: bool,
        present: bool,
        absent: bool,
        negated: bool,
        reading: Reading,
    ) -> Walk
        ensures { result ≡ condition_of here present absent negated reading self }
    {
        self.opened(
            here && present,
            !here || present || absent,
            negated,
            reading,
        )
    }

    // Whether a listed value matches can still matter.
    pub(crate) fn matters(self) -> bool
        ensures { result ≡ matters_of self }
    {
        self.holds && self.here && !self.some
    }

    // A listed value was seen, which matches or not.
    pub(crate) fn seen(self, yes: bool) -> Walk
        ensures { result ≡ seen_of yes self }
    {
        Walk {
            some: self.some || yes,
            ..self
        }
    }
}
