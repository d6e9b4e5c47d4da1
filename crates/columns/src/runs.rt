// The run over the plan of a column, which gathers the rows that hold: with a state, for every string that has it; or with an address.
ghost use Rattle.std.specs.Prelude.{◌≡◌, ℕ, Bool};
ghost use Rattle.matching.specs.Machinery.Rows.{row_bit};
ghost use Rattle.columns.specs.Machinery.Plan.{in_network, fresh_run, closes_run, done_run, began_run, opened_run, seen_run, run_plan};

use crate::words::Word;
use matching::state::has_position;

/// What is known at a word of a plan.
// stays: no plainer as one form with judging's Walk, which also knows whether a list is of the column and how it is read.
#[derive(Clone, Copy, Debug, PartialEq, Eq)]
pub struct Run {
    // The bit of the row at hand, and of the next one.
    pub bit: u64,
    pub next: u64,
    // The rows before it that hold.
    pub set: u64,
    // The row at hand holds as far as its lists before the last go.
    pub holds: bool,
    // The sense of the last list, and whether some value of it matched.
    pub negated: bool,
    pub some: bool,
}

impl Run {
    // Before the first word.
    fn fresh() -> Self
        ensures { result ≡ fresh_run }
    {
        Run {
            bit: 0,
            next: 1,
            set: 0,
            holds: false,
            negated: false,
            some: false,
        }
    }

    // The row at hand holds, its last list closed.
    fn closes(self) -> bool
        ensures { result ≡ closes_run self }
    {
        self.holds && self.some != self.negated
    }

    // The rows gathered, the row at hand closed.
    fn rows(self) -> u64
        ensures { result ≡ done_run self }
    {
        if self.closes() {
            self.set | self.bit
        } else {
            self.set
        }
    }

    // A statement begins.
    fn row_begun(self) -> Self
        ensures { result ≡ began_run self }
    {
        Run {
            bit: self.next,
            next: self.next << 1,
            set: self.rows(),
            holds: true,
            negated: true,
            some: false,
        }
    }

    // A list opens.
    fn list_opened(self, negated: bool) -> Self
        ensures { result ≡ opened_run negated self }
    {
        Run {
            holds: self.closes(),
            negated,
            some: false,
            ..self
        }
    }

    // A value or a network, which matches or not.
    fn value_seen(self, hit: bool) -> Self
        ensures { result ≡ seen_run hit self }
    {
        if self.holds && !self.some {
            Run { some: hit, ..self }
        } else {
            self
        }
    }
}

// The rows that hold by a plan, given which of its values or networks match.
fn rows_by<H: Fn(u64) -> bool>(plan: &[u64], hits: H) -> u64
    requires { H.IsAlwaysCallable hits }
    ensures { (matches : ℕ → Bool) → ((q : ℕ) (hit : Bool) → H.post hits q hit → hit ≡ matches q) → result ≡ done_run (run_plan matches fresh_run plan.now) }
{
    let mut run = Run::fresh();
    for &word in plan {
        run = match Word::of(word) {
            Word::Statement => run.row_begun(),
            Word::List => run.list_opened(false),
            Word::NegatedList => run.list_opened(true),
            Word::Content(content) => run.value_seen(hits(content)),
        };
    }
    run.rows()
}

// The rows that hold for a state, by the plan of a column of strings: a value matches if its last position is in the state.
pub(crate) fn text_rows(plan: &[u64], row: [u64; 8]) -> u64
    ensures { result ≡ done_run (run_plan (row_bit row) fresh_run plan.now) }
{
    rows_by(plan, |p| has_position(row, p as usize))
}

// Whether an address is in a network of a plan, which has its address and the number of bits behind its prefix.
fn in_planned(x: u64, network: u64) -> bool
    ensures { result ≡ in_network x network }
{
    let bits = network % 64;
    (network / 64) >> bits == x >> bits
}

// The rows that hold for an address, by the plan of column 7: a network matches if the address is in it.
pub(crate) fn address_rows(plan: &[u64], x: u64) -> u64
    ensures { result ≡ done_run (run_plan (in_network x) fresh_run plan.now) }
{
    rows_by(plan, |network| in_planned(x, network))
}
