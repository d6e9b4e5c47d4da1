// The cases of the text, a line for each: what the reader says of the table, and what the writer says of its records.
use crate::walk::{Walked, is_same, write_records};
use cases::laying::lay_words;
use cases::print::{print_number, print_refusal};
use cases::text::{first_bytes, split_once};
use refusals::Refusal;
use stored::reader::read;

fn print_read(answer: Result<u8, Refusal>) {
    match answer {
        Ok(rows) => {
            io::write_all(1, b" accepted");
            print_number(usize::from(rows));
        }
        Err(refusal) => {
            io::write_all(1, b" refused");
            print_refusal(u8::from(refusal.reason), refusal.place);
        }
    }
}

fn print_written(table: &[u8], buffer: &[u8], size: usize) {
    io::write_all(1, b"; written");
    print_number(size);
    if is_same(table, buffer, size) {
        io::write_all(1, b" same");
    } else {
        io::write_all(1, b" differs");
    }
}

fn print_walked(table: &[u8], buffer: &[u8], walked: Result<Walked, Refusal>) {
    match walked {
        Ok(Walked::Written(size)) => print_written(table, buffer, size),
        Err(refusal) => {
            io::write_all(1, b"; writer refused");
            print_refusal(u8::from(refusal.reason), refusal.place);
        }
        Ok(Walked::Stopped(place)) => {
            io::write_all(1, b"; stopped at");
            print_number(place);
        }
    }
}

fn run_table(table: &[u8], buffer: &mut [u8]) {
    print_read(read(table));
    let walked = write_records(table, buffer);
    print_walked(table, buffer, walked);
    io::write_all(1, b"\n");
}

// `NAME: BYTES`; a line without a colon, or with `#` in front, is no case.
fn run_line(line: &[u8], table: &mut [u8], buffer: &mut [u8]) {
    if line.starts_with(b"#") {
        return;
    }
    if let Some((name, words)) = split_once(line, b':') {
        io::write_all(1, name);
        let size = lay_words(words, table);
        run_table(first_bytes(table, size), buffer);
    }
}

// Runs the cases of a text, one line after the other.
pub(crate) fn run_cases(text: &[u8], table: &mut [u8], buffer: &mut [u8]) {
    for line in text.split_inclusive(|byte| *byte == b'\n') {
        run_line(line, table, buffer);
    }
}
