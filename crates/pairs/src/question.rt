// The two questions about a pair of tables, each with a workspace of its own that is full of ones before and must be zero afterwards.
use crate::print::{Numbers, numbers_of, print_refused, print_shape};
use cases::same::are_all;
use comparing::answers::{Refused, Shape};
use comparing::compare::{gap, gap_count};
use comparing::limits::{VALUE_BYTES, WORKSPACE_WORDS};

/// Every bit is set.
pub const ONES: u64 = u64::MAX;

const PRINTED_GAPS: u64 = 8;

fn print_unless_clean(workspace: &[u64]) {
    if !are_all(workspace, 0) {
        io::write_all(1, b"workspace not clean\n");
    }
}

fn counting_of(first: &[u8], second: &[u8]) -> Result<u64, Refused> {
    let mut workspace = [ONES; WORKSPACE_WORDS];
    let answer = gap_count(&mut workspace, first, second);
    print_unless_clean(&workspace);
    answer
}

fn showing_of(first: &[u8], second: &[u8], k: u64, values: &mut [u8]) -> Result<Shape, Refused> {
    let mut workspace = [ONES; WORKSPACE_WORDS];
    let answer = gap(&mut workspace, first, second, k, values);
    print_unless_clean(&workspace);
    answer
}

/// What came out of a question for a gap.
// stays: what may not change print_showing, print_counting: they print any numbers.
pub fn print_showing(answer: Result<Shape, Numbers>, values: &[u8]) {
    match answer {
        Ok(shape) => print_shape(shape, values),
        Err(refused) => print_refused(refused),
    }
}

/// What came out of a comparison.
pub fn print_counting(answer: Result<u64, Numbers>) {
    match answer {
        Ok(count) => {
            io::write_all(1, b" gaps ");
            io::print_decimal(1, count);
        }
        Err(refused) => print_refused(refused),
    }
}

// Asks for gap k, and prints its number and its columns.
fn run_gap(first: &[u8], second: &[u8], k: u64) {
    let mut values = [0xEEu8; VALUE_BYTES];
    let answer = showing_of(first, second, k, &mut values);
    io::write_all(1, b"  ");
    io::print_decimal(1, k);
    print_showing(answer.map_err(numbers_of), &values);
    io::write_all(1, b"\n");
}

fn run_gaps(first: &[u8], second: &[u8], count: u64) {
    for k in 0..count.min(PRINTED_GAPS) {
        run_gap(first, second, k);
    }
}

// Compares the first table against the second: the number of gaps, and the first of them. A refused comparison has no gaps to print.
pub(crate) fn run_pair(name: &[u8], first: &[u8], second: &[u8]) {
    let answer = counting_of(first, second);
    io::write_all(1, name);
    print_counting(answer.map_err(numbers_of));
    io::write_all(1, b"\n");
    run_gaps(first, second, answer.unwrap_or(0));
}
