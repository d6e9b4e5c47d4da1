// The cases of the text, a line for each: `NAME: TEXT`. Between backquotes words in hex stand for bytes (`61*128` is the byte 61, 128
// times); every other byte stands for itself. A line without a colon, or with `#` in front, is no case.
ghost use Rattle.std.specs.Prelude.{◌≤◌, length};

use crate::printed::{FILLING, print_answer};
use cases::laying::lay_words;
use cases::text::{begins_with, part_of, split_once};
use policy::reader::read_json;
use stored::limits::MOST_BYTES;

// Lays down what the words between backquotes stand for, and gives how many bytes that is; nothing counts where there is no room for all.
fn lay_between(words: &[u8], room: &mut [u8]) -> usize
    ensures { result ≤ length room.old }
{
    let size = lay_words(words, room);
    if size <= room.len() { size } else { 0 }
}

// Lays down bytes that stand for themselves, as far as there is room, and gives how many.
fn lay_bytes(bytes: &[u8], room: &mut [u8]) -> usize
    ensures { result ≤ length room.old }
{
    let size = bytes.len().min(room.len());
    room[..size].copy_from_slice(&bytes[..size]);
    size
}

// Lays down what a text stands for, and gives its length. Every second part stands between backquotes.
fn lay_case(text: &[u8], room: &mut [u8]) -> usize
    ensures { result ≤ length room.old }
{
    let mut size: usize = 0;
    for (i, part) in text.split(|&byte| byte == b'`').enumerate() {
        let left = &mut room[size..];
        size += if i % 2 == 0 {
            lay_bytes(part, left)
        } else {
            lay_between(part, left)
        };
    }
    size
}

fn run_case(text: &[u8], json: &mut [u8]) {
    let mut table = [FILLING; MOST_BYTES];
    let size = lay_case(text, json);
    let answer = read_json(&json[..size], &mut table);
    print_answer(answer, &table);
}

fn run_line(line: &[u8], json: &mut [u8]) {
    if begins_with(line, b"#") {
        return;
    }
    if let Some((name, text)) = split_once(line, b':') {
        io::write_all(1, name);
        run_case(part_of(text, 1, text.len()), json);
    }
}

pub(crate) fn run_cases(text: &[u8], json: &mut [u8]) {
    for line in text.split_inclusive(|&byte| byte == b'\n') {
        if let [words @ .., _] = line {
            run_line(words, json);
        }
    }
}
