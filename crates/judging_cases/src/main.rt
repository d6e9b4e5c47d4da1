// Judges the requests of standard input by the tables that stand before them. One line for each request says what came out.

#![tactic(auto)]

mod line;
mod request;

// The text of the cases, the table at hand, and the columns of one request.
fn main() {
    let mut text = [0u8; 131072];
    let mut table = [0u8; 20000];
    let mut room = [0u8; 40000];
    let size = io::read_full(0, &mut text);
    line::run_lines(&text[..size], &mut table, &mut room);
}
