// Runs the reader and the writer of stored tables on the cases of standard input, and then the writer on items that no byte
// string can show. One line for each case says what came out.

#![tactic(auto)]

mod alone;
mod tables;
mod walk;

// The text of the cases, one table at a time, and what the writer writes of it.
fn main() {
    let mut text = [0u8; 131072];
    let mut table = [0u8; 20000];
    let mut buffer = [0u8; 16384];
    let size = io::read_full(0, &mut text);
    tables::run_cases(&text[..size], &mut table, &mut buffer);
    alone::run_items();
}
