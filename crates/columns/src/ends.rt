// The next address at which the rows of column 7 may change: a network begins there, or has just ended.
ghost use Rattle.std.specs.Prelude.{◌≡◌, ◌++◌, ◌-◌, ◌^◌, ◌<◌, ◌≤◌, length, ltb};
ghost use Rattle.stored.specs.Choice.{pick};
ghost use Rattle.stored.specs.Entries.{entries_of};
ghost use Rattle.stored.specs.Machinery.Following.{Accepted};
ghost use Rattle.judging.specs.Judging.{rows_of};
ghost use Rattle.states.specs.Machinery.Rows.{prints_at};
ghost use Rattle.columns.specs.Values.{networks_in};
ghost use Rattle.columns.specs.Machinery.Plan.{edge_of, edge_in, AddressPlans};
ghost use Rattle.columns.specs.Machinery.Edges.{above, next_edge};

use crate::limits::NO_ADDRESS;
use crate::plan::Plans;
use crate::words::Word;

// The end of a network if it lies above an address, else 2 ^ 32.
fn end_above(end: u64, x: u64) -> u64
    ensures { result ≡ above end x }
{
    if x < end { end } else { NO_ADDRESS }
}

// A power of two.
fn power(bits: u64) -> u64
    requires { bits < 64 }
    ensures { result ≡ 2 ^ bits }
{
    1u64 << bits
}

// The least end above an address of a network of a plan.
fn network_edge(network: u64, x: u64) -> u64
    ensures { result ≡ edge_of network x }
{
    let size = power(network % 64);
    let low = network / 64 / size * size;
    end_above(low, x).min(end_above(low + size, x))
}

// The least end above an address by a word of a plan.
fn word_edge(word: u64, x: u64) -> u64
    ensures { result ≡ pick (ltb word 4) (2 ^ 32) (edge_of (word - 4) x) }
{
    match Word::of(word) {
        Word::Content(network) => network_edge(network, x),
        Word::Statement | Word::List | Word::NegatedList => NO_ADDRESS,
    }
}

// The least end above an address, by a plan.
fn plan_edge(plan: &[u64], x: u64) -> u64
    ensures { result ≡ edge_in plan.now x }
{
    let mut least = NO_ADDRESS;
    for &word in plan {
        least = least.min(word_edge(word, x));
    }
    least
}

/// The least end of a network of either table above an address, 2 ^ 32 if there is none.
// stays: what may not change next_edge: it asks less of both tables than `Tables` does.
pub fn next_edge(words: &[u64], first: &[u8], second: &[u8], plans: Plans, x: u64) -> u64
    requires { Accepted (entries_of first.now) × Accepted (entries_of second.now) × AddressPlans first.now second.now words.now plans
        × (prints_at ≤ length words.now) }
    ensures { result ≡ next_edge (networks_in (rows_of first.now ++ rows_of second.now)) x }
{
    plan_edge(plans.own(words), x).min(plan_edge(plans.other(words), x))
}
