// The lines of the text: `fold VALUE STRING`, and `plain`, `literal`, `principal` likewise, hold a value, read in that way, against a
// string; `network BYTES` holds a network (address and length) against the address behind it.
use cases::laying::{lay_text, lay_words};
use cases::text::{begins_with, first_bytes, part_of, place_of};
use matching::network::in_network;
use matching::reading::Reading;
use matching::value::value_matches;
use stored::records::byte_at;

// Bytes that a value has at most.
const MOST_VALUE: usize = 511;

// The line as it stands, and behind it what came out.
fn print_held(line: &[u8], held: bool) {
    io::write_all(1, first_bytes(line, place_of(line, b'\n')));
    if held {
        io::write_all(1, b": yes\n");
    } else {
        io::write_all(1, b": no\n");
    }
}

// What stands behind the first blank, or nothing.
fn behind_blank(line: &[u8]) -> &[u8] {
    part_of(line, place_of(line, b' ') + 1, line.len())
}

// Lays the value and the string of a line into the room, one behind the other, and holds the one against the other.
fn run_value(line: &[u8], reading: Reading, room: &mut [u8]) {
    let words = behind_blank(line);
    let length = lay_text(words, room, 0);
    let end = lay_text(behind_blank(words), room, length);
    let value = part_of(room, 0, length);
    if value.len() <= MOST_VALUE {
        let string = part_of(room, length, end);
        print_held(line, value_matches(value, reading, string));
    }
}

fn run_network(line: &[u8], room: &mut [u8]) {
    lay_words(behind_blank(line), room);
    let network = u32::from_be_bytes([
        byte_at(room, 0),
        byte_at(room, 1),
        byte_at(room, 2),
        byte_at(room, 3),
    ]);
    let address = u32::from_be_bytes([
        byte_at(room, 5),
        byte_at(room, 6),
        byte_at(room, 7),
        byte_at(room, 8),
    ]);
    print_held(line, in_network(address, network, byte_at(room, 4)));
}

// How a line wants its value read.
fn reading_of(line: &[u8]) -> Option<Reading> {
    if begins_with(line, b"fold ") {
        Some(Reading::Fold)
    } else if begins_with(line, b"plain ") {
        Some(Reading::Plain)
    } else if begins_with(line, b"literal ") {
        Some(Reading::Literal)
    } else if begins_with(line, b"principal ") {
        Some(Reading::Principal)
    } else {
        None
    }
}

// A line that begins with none of the five words does nothing.
fn run_line(line: &[u8], room: &mut [u8]) {
    if let Some(reading) = reading_of(line) {
        run_value(line, reading, room);
    } else if begins_with(line, b"network ") {
        run_network(line, room);
    }
}

// Runs the lines of a text, one after the other.
pub(crate) fn run_lines(text: &[u8], room: &mut [u8]) {
    for line in text.split_inclusive(|b| *b == b'\n') {
        run_line(line, room);
    }
}
