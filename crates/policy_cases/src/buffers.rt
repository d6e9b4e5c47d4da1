// One policy into buffers of every length around its table's: 14 where the buffer is short, and then nothing in it has changed.
use crate::printed::{FILLING, print_answer};
use cases::print::print_number;
use policy::reader::read_json;

// Reads a policy with the first bytes of the room as its buffer.
fn run_buffer(text: &[u8], size: usize) {
    let mut table = [FILLING; 32];
    let room = size.min(table.len());
    let answer = read_json(text, &mut table[..room]);
    io::write_all(1, b"buffer of");
    print_number(size);
    print_answer(answer, &table);
}

pub(crate) fn run_buffers() {
    let text =
        b"{\"Version\":\"2012-10-17\",\"Statement\":{\"Effect\":\"Allow\",\"Principal\":\"*\",\"Action\":\"a*\",\"Resource\":\"r\"}}";
    for size in 0..21usize {
        run_buffer(text, size);
    }
}
