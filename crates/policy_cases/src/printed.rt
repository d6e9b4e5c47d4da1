// What is printed of an answer. The buffer holds one filling byte before each case, so that what was written can be told.
use cases::print::{print_number, print_refusal};
use cases::same::are_all;
use refusals::Refusal;

// No record of these cases has it.
pub(crate) const FILLING: u8 = 0xEE;

fn print_bytes(bytes: &[u8]) {
    for byte in bytes {
        io::write_all(1, b" ");
        io::print_hex(1, u64::from(*byte), 2);
    }
}

// The bytes of a table, and whether those behind it are as they were.
fn print_table(table: &[u8], size: usize) {
    let Some((bytes, behind)) = table.split_at_checked(size) else {
        io::write_all(1, b" longer than its buffer");
        return;
    };
    print_bytes(bytes);
    if !are_all(behind, FILLING) {
        io::write_all(1, b"; bytes behind it changed");
    }
}

pub(crate) fn print_answer(answer: Result<usize, Refusal>, table: &[u8]) {
    match answer {
        Ok(size) => {
            io::write_all(1, b" written");
            print_number(size);
            io::write_all(1, b":");
            print_table(table, size);
        }
        Err(refusal) => {
            io::write_all(1, b" refused");
            print_refusal(u8::from(refusal.reason), refusal.place);
            if !are_all(table, FILLING) {
                io::write_all(1, b"; buffer changed");
            }
        }
    }
    io::write_all(1, b"\n");
}
