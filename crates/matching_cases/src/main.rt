// Holds values against strings and networks against addresses, as the lines of standard input ask for it. Each line is printed with
// what came out.

#![tactic(auto)]

mod line;

// The text of the cases, and room for the bytes of one line.
fn main() {
    let mut text = [0u8; 65536];
    let mut room = [0u8; 20000];
    let size = io::read_full(0, &mut text);
    line::run_lines(&text[..size], &mut room);
}
