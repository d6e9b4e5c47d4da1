// Reads a policy in the public JSON form from standard input, and writes its table to standard output, or the line of a refusal.

#![tactic(auto)]

mod lines;

use crate::lines::{LINE, refusal_line};
use policy::reader::read_json;
use refusals::{Reason, Refusal};
use stored::limits::MOST_BYTES;

// Bytes of input that are taken, at most, and room for one more, which shows that there are more.
const MOST_INPUT: usize = 131072;

const INPUT_ROOM: usize = 131073;

fn print_refusal(refusal: Refusal) {
    let mut line = [0u8; LINE];
    let size = refusal_line(&mut line, u8::from(refusal.reason), refusal.place);
    io::write_all(1, &line[..size]);
}

// Reads a text, and prints what came of it. A table has no more bytes than the room has.
fn print_table(text: &[u8]) {
    let mut table = [0u8; MOST_BYTES];
    match read_json(text, &mut table) {
        Ok(size) => {
            io::write_all(1, &table[..size]);
        }
        Err(refusal) => print_refusal(refusal),
    }
}

fn main() {
    let mut input = [0u8; INPUT_ROOM];
    let size = io::read_full(0, &mut input);
    if MOST_INPUT < size {
        print_refusal(Refusal {
            reason: Reason::TooLong,
            place: MOST_INPUT,
        });
    } else {
        print_table(&input[..size]);
    }
}
