// Compares the pairs of tables of standard input, and then asks with buffers that no text can give. One line for each comparison
// says what came out, and one more for each of its first gaps.

#![tactic(auto)]

mod alone;

use pairs::line::run_lines;

fn main() {
    let mut text = [0u8; 131072];
    let size = io::read_full(0, &mut text);
    run_lines(&text[..size]);
    alone::run_buffers();
}
