// The lines of the text: `table NAME: BYTES` is the table at hand from there on, `NAME: COLUMNS` a request that it judges.
use crate::request::lay_request;
use cases::laying::lay_words;
use cases::print::print_refusal;
use cases::text::{begins_with, first_bytes, split_once};
use judging::judge::{Verdict, judge};
use refusals::Refusal;

// The word for an answer.
fn word_of(answer: Result<Verdict, Refusal>) -> &'static [u8] {
    match answer {
        Ok(Verdict::Allowed) => b" allowed",
        Ok(Verdict::DeniedByRule) => b" denied",
        Ok(Verdict::NotMentioned) => b" not-mentioned",
        Err(_) => b" refused",
    }
}

fn print_answer(answer: Result<Verdict, Refusal>) {
    io::write_all(1, word_of(answer));
    if let Err(refusal) = answer {
        print_refusal(u8::from(refusal.reason), refusal.place);
    }
    io::write_all(1, b"\n");
}

// Runs one line and gives the size of the table at hand. A line without a colon, or with `#` in front, does nothing.
fn run_line(line: &[u8], table: &mut [u8], size: usize, room: &mut [u8]) -> usize {
    if begins_with(line, b"#") {
        return size;
    }
    let Some((name, rest)) = split_once(line, b':') else {
        return size;
    };
    if begins_with(name, b"table ") {
        return lay_words(rest, table);
    }
    io::write_all(1, name);
    print_answer(judge(first_bytes(table, size), lay_request(rest, room)));
    size
}

// Runs the lines of a text, one after the other.
pub(crate) fn run_lines(text: &[u8], table: &mut [u8], room: &mut [u8]) {
    let mut size: usize = 0;
    for line in text.split_inclusive(|b| *b == b'\n') {
        size = run_line(line, table, size, room);
    }
}
