// Runs the bench list (RULES 10): the lines marked P by matching and judging, the others, which stand on standard input, by
// comparing. Each line is printed in its own words, and below it what came out.

#![tactic(auto)]

mod marked;

use pairs::line::run_lines;

fn main() {
    let mut text = [0u8; 32768];
    let size = io::read_full(0, &mut text);
    marked::run_marked();
    run_lines(&text[..size]);
}
