// Kinds of request as sets of rows: counting the gaps among them, and finding gap k.
ghost use Rattle.std.specs.Prelude.{◌≡◌, map, ◌+◌, ◌-◌, ◌*◌, ◌%◌, ◌^◌, ◌≤◌, ◌<◌, length, IfSome, MatchOption};
ghost use Rattle.states.specs.Machinery.Rows.{prints_at};
ghost use Rattle.comparing.specs.Compared.{product, most_kinds};
ghost use Rattle.comparing.specs.Machinery.Kinds.{count_of, step_of, column_prints, prints_in, Ascending, Bounded, prints_along, meet_all, MeetsAhead, KindsAhead};

use crate::limits::{ALL_ROWS, COLUMNS};
use crate::sides::Sides;
use states::limits::PRINTS;

// The footprints of a column.
fn column_prints<'a>(words: &'a [u64], bounds: &[usize; 9], column: usize) -> &'a [u64]
    requires bounded { Bounded words.now bounds.now }
    requires low { column < 8 }
    ensures { result.now ≡ column_prints words.now bounds.now column }
{
    &words[PRINTS + bounds[column]..PRINTS + bounds[column + 1]]
}

// The rows of a set that all footprints of a column have too.
fn meet_column(prints: &[u64], rows: u64) -> u64
    ensures { result ≡ meet_all rows prints.now }
{
    prints.iter().fold(rows, |left, print| left & *print)
}

// For each column, the rows that all footprints of the columns from it on have.
fn meets_of(words: &[u64], bounds: &[usize; 9]) -> [u64; 9]
    requires { Bounded words.now bounds.now }
    ensures { MeetsAhead words.now bounds.now result }
{
    let mut meets = [ALL_ROWS; 9];
    for column in (0..COLUMNS).rev() {
        let rows = meets[column + 1];
        meets[column] = meet_column(column_prints(words, bounds, column), rows);
    }
    meets
}

// A number of kinds with a column in front that has so many footprints, as a number of 32 bits.
fn kinds_with(count: usize, kinds: u64) -> u64
    requires { kinds < 2 ^ 32 }
    ensures { result ≡ count * kinds % 2 ^ 32 }
{
    (count as u64) % 4294967296 * kinds % 4294967296
}

// For each column, the number of kinds of the columns from it on, as a number of 32 bits.
fn kinds_of(bounds: &[usize; 9]) -> [u64; 9]
    requires { Ascending bounds.now }
    ensures { KindsAhead bounds.now result }
{
    let mut kinds = [1u64; 9];
    for column in (0..COLUMNS).rev() {
        let more = kinds[column + 1];
        kinds[column] = kinds_with(bounds[column + 1] - bounds[column], more);
    }
    kinds
}

/// A footprint of a column, and what is left of k there.
#[derive(Clone, Copy)]
pub struct Step {
    pub print: u64,
    pub left: u64,
}

/// The footprints of all columns in the workspace, those of a column from its bound to the next one's; of the columns from each one on, the
/// rows that all their footprints have, and the number of their kinds as a number of 32 bits; and whose rows they are.
#[derive(Clone, Copy)]
pub(crate) struct Footprints<'a> {
    words: &'a [u64],
    bounds: [usize; 9],
    meets: [u64; 9],
    kinds: [u64; 9],
    sides: Sides,
    ghost bounded: { Bounded words.now bounds },
    ghost meets_ahead: { MeetsAhead words.now bounds meets },
    ghost kinds_ahead: { KindsAhead bounds kinds },
    ghost few: { product (map length (prints_in words.now bounds 0)) ≤ most_kinds },
}

impl<'a> Footprints<'a> {
    pub(crate) fn new(words: &'a [u64], bounds: [usize; 9], sides: Sides) -> Footprints<'a>
        requires bounded { Bounded words.now bounds }
        requires few { product (map length (prints_in words.now bounds 0)) ≤ most_kinds }
        ensures words { result.words ≡ words.entry }
        ensures bounds { result.bounds ≡ bounds }
        ensures sides { result.sides ≡ sides }
    {
        let meets = meets_of(words, &bounds);
        let kinds = kinds_of(&bounds);
        Footprints {
            words,
            bounds,
            meets,
            kinds,
            sides,
        }
    }

    // The gaps among the kinds of the columns from one on, given the rows still left. A branch that is settled is counted at once.
    fn count(&self, column: usize, rows: u64) -> u64
        requires low { column ≤ 8 }
        requires few { product (map length (prints_in self.now.words.now self.now.bounds column)) ≤ most_kinds }
        ensures { result ≡ count_of self.now.sides (prints_in self.now.words.now self.now.bounds column) rows }
    {
        let sides = self.sides;
        if column == COLUMNS {
            return sides.settled(rows, 1);
        }
        let meet = self.meets[column + 1];
        let more = self.kinds[column + 1];
        let mut sum: u64 = 0;
        for &print in column_prints(self.words, &self.bounds, column) {
            let left = rows & print;
            if sides.is_settled(meet, left) {
                sum += sides.settled(left, more);
            } else {
                sum += self.count(column + 1, left);
            }
        }
        sum
    }

    // The gaps among all kinds.
    pub(crate) fn count_gaps(&self) -> u64
        ensures { result ≡ count_of self.now.sides (prints_in self.now.words.now self.now.bounds 0) (2 ^ 64 - 1) }
    {
        self.count(0, ALL_ROWS)
    }

    // The footprint of a column in which gap k lies, counted among the kinds of the columns from this one on.
    fn step_to(&self, column: usize, rows: u64, k: u64) -> Option<Step>
        requires low { column < 8 }
        requires few { product (map length (prints_in self.now.words.now self.now.bounds column)) ≤ most_kinds }
        ensures found { let step = step_of self.now.sides (prints_in self.now.words.now self.now.bounds column) rows k in MatchOption result (step.print ≡ 0) (λ found. found ≡ step) }
        ensures few { IfSome result (λ found. product (map length (prints_in self.now.words.now self.now.bounds (column + 1))) ≤ most_kinds) }
    {
        let mut left = k;
        for &print in column_prints(self.words, &self.bounds, column) {
            let here = self.count(column + 1, rows & print);
            if left < here {
                return Some(Step { print, left });
            }
            left -= here;
        }
        None
    }

    // The footprints of gap k, column by column. Behind a column in which it does not lie there are no kinds, and all are 0.
    pub(crate) fn gap_prints(&self, k: u64) -> [u64; 8]
        ensures { result ≡ prints_along self.now.sides (prints_in self.now.words.now self.now.bounds 0) (2 ^ 64 - 1) k }
    {
        let mut prints = [0u64; 8];
        let mut rows = ALL_ROWS;
        let mut left = k;
        for column in 0..COLUMNS {
            let Some(step) = self.step_to(column, rows, left) else {
                return prints;
            };
            prints[column] = step.print;
            rows &= step.print;
            left = step.left;
        }
        prints
    }
}
