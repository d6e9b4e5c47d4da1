// The gap program: two tables on standard input, one behind the other; on standard output the number of gaps and the first of them,
// or the refusal.

#![tactic(auto)]

mod lines;
mod split;

use crate::lines::{LINE, count_line, gap_line, refusal_line};
use crate::split::split;
use comparing::answers::{Refused, Side};
use comparing::compare::{gap, gap_count};
use comparing::limits::{VALUE_BYTES, WORKSPACE_WORDS};
use refusals::Reason;

// Bytes of input that are taken, at most, and room for one more, which shows that there are more.
const MOST_INPUT: usize = 32768;

const INPUT_ROOM: usize = 32769;
// Gaps that are printed, at most.
const MOST_SHOWN: u64 = 16;

fn print_refusal(refused: Refused) {
    let mut line = [0u8; LINE];
    let size = refusal_line(
        &mut line,
        u8::from(refused.reason),
        u8::from(refused.table),
        refused.place,
    );
    io::write_all(1, &line[..size]);
}

fn print_count(count: u64) {
    let mut line = [0u8; LINE];
    let size = count_line(&mut line, count);
    io::write_all(1, &line[..size]);
}

fn print_gap(workspace: &mut [u64], first: &[u8], second: &[u8], k: u64) {
    let mut values = [0u8; VALUE_BYTES];
    match gap(workspace, first, second, k, &mut values) {
        Ok(shape) => {
            let mut line = [0u8; LINE];
            let size = gap_line(&mut line, k, &values, shape);
            io::write_all(1, &line[..size]);
        }
        Err(refused) => print_refusal(refused),
    }
}

// Prints the first gaps of so many.
fn print_gaps(workspace: &mut [u64], first: &[u8], second: &[u8], count: u64) {
    for k in 0..count.min(MOST_SHOWN) {
        print_gap(workspace, first, second, k);
    }
}

// Compares the two tables of the input.
fn compare(input: &[u8]) {
    let end = split(input);
    let first = &input[..end];
    let second = &input[end..];
    let mut workspace = [0u64; WORKSPACE_WORDS];
    match gap_count(&mut workspace, first, second) {
        Ok(count) => {
            print_count(count);
            print_gaps(&mut workspace, first, second, count);
        }
        Err(refused) => print_refusal(refused),
    }
}

fn main() {
    let mut input = [0u8; INPUT_ROOM];
    let size = io::read_full(0, &mut input);
    if MOST_INPUT < size {
        print_refusal(Refused {
            reason: Reason::TooLong,
            table: Side::Comparison,
            place: MOST_INPUT,
        });
    } else {
        compare(&input[..size]);
    }
}
