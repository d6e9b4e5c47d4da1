// Reads the policies of standard input, one a line, and prints for each its table or its refusal; then one policy into buffers that are
// too short, just long enough, and longer.

#![tactic(auto)]

mod buffers;
mod cases_of;
mod printed;

// The text of the cases, and room for the text of one.
fn main() {
    let mut text = [0u8; 131072];
    let mut json = [0u8; 65536];
    let size = io::read_full(0, &mut text);
    cases_of::run_cases(&text[..size], &mut json);
    buffers::run_buffers();
}
