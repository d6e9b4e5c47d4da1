// The lines of the text: `first NAME: BYTES` and `second NAME: BYTES` are the tables at hand from there on, `compare NAME` compares
// the first against the second, and `turned NAME` the second against the first. A line that begins with `- ` is printed.
use crate::question::run_pair;
use cases::laying::lay_words;
use cases::text::{begins_with, first_bytes, place_of, split_once};

// The room for a table, over the 16,384 bytes that one may have.
const TABLE_ROOM: usize = 20000;

// A table at hand, in the first bytes of its room.
#[derive(Drop)]
struct Table {
    room: [u8; TABLE_ROOM],
    size: usize,
}

impl Table {
    fn new() -> Table {
        Table {
            room: [0; TABLE_ROOM],
            size: 0,
        }
    }

    fn bytes(&self) -> &[u8] {
        first_bytes(&self.room, self.size)
    }

    // Lays down the bytes behind the line's colon; a line with no colon leaves no bytes.
    fn lay(&mut self, line: &[u8]) {
        self.size = match split_once(line, b':') {
            Some((_, words)) => lay_words(words, &mut self.room),
            None => 0,
        };
    }
}

// What stands behind the first blank, up to the end of the line.
fn name_of(line: &[u8]) -> &[u8] {
    let words = first_bytes(line, place_of(line, b'\n'));
    match split_once(words, b' ') {
        Some((_, name)) => name,
        None => words,
    }
}

// Words between the comparisons, set apart by an empty line.
fn print_words(line: &[u8]) {
    io::write_all(1, b"\n");
    io::write_all(1, line);
}

fn run_comparison(line: &[u8], first: &[u8], second: &[u8]) {
    if begins_with(line, b"compare ") {
        run_pair(name_of(line), first, second);
    }
    if begins_with(line, b"turned ") {
        run_pair(name_of(line), second, first);
    }
}

// Runs one line with the tables at hand. A line that begins in none of these ways does nothing.
fn run_line(line: &[u8], first: &mut Table, second: &mut Table) {
    if begins_with(line, b"- ") {
        print_words(line);
    } else if begins_with(line, b"first ") {
        first.lay(line);
    } else if begins_with(line, b"second ") {
        second.lay(line);
    } else {
        run_comparison(line, first.bytes(), second.bytes());
    }
}

/// Runs the lines of a text, one after the other.
pub fn run_lines(text: &[u8]) {
    let mut first = Table::new();
    let mut second = Table::new();
    for line in text.split_inclusive(|&byte| byte == b'\n') {
        run_line(line, &mut first, &mut second);
    }
}
