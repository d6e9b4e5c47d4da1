// The two questions with lent buffers that are too short, just long enough or longer, and with a k past the last gap. The tables
// are those of RULES 8, which have one gap.
ghost use Rattle.std.specs.Prelude.{◌≤◌};

use cases::same::are_all;
use cases::text::part_of;
use comparing::compare::{gap, gap_count};
use pairs::print::numbers_of;
use pairs::question::{ONES, print_counting, print_showing};

// Stands in no shown value.
const FILLING: u8 = 0xEE;

fn print_words(words: &[u64]) {
    if are_all(words, ONES) {
        io::write_all(1, b"; workspace kept");
    } else if are_all(words, 0) {
        io::write_all(1, b"; workspace zero");
    } else {
        io::write_all(1, b"; workspace not clean");
    }
}

fn print_values(values: &[u8]) {
    if are_all(values, FILLING) {
        io::write_all(1, b"; values kept");
        return;
    }
    io::write_all(1, b"; values written");
    if are_all(part_of(values, 3584, values.len()), FILLING) {
        io::write_all(1, b", those behind kept");
    }
}

// The number of gaps with a workspace of so many words full of ones.
fn count_in<const WORDS: usize>(name: &[u8], first: &[u8], second: &[u8])
    requires { WORDS ≤ 10000 }
{
    let mut words = [ONES; WORDS];
    let answer = gap_count(&mut words, first, second);
    io::write_all(1, name);
    print_counting(answer.map_err(numbers_of));
    print_words(&words);
    io::write_all(1, b"\n");
}

// Gap k with a workspace of so many words full of ones and a value buffer of so many filling bytes.
fn show_in<const WORDS: usize, const BYTES: usize>(name: &[u8], first: &[u8], second: &[u8], k: u64)
    requires { (WORDS ≤ 10000) × (BYTES ≤ 3600) }
{
    let mut words = [ONES; WORDS];
    let mut values = [FILLING; BYTES];
    let answer = gap(&mut words, first, second, k, &mut values);
    io::write_all(1, name);
    print_showing(answer.map_err(numbers_of), &values);
    print_words(&words);
    print_values(&values);
    io::write_all(1, b"\n");
}

pub(crate) fn run_buffers() {
    let first = b"\x01\x01\x02\x01\x03\x00@*\x03\x01Aa*\x03\x02@r\x05";
    let second = b"\x01\x01\x02\x01\x03\x00@*\x03\x01Aab\x03\x02@r\x05";
    count_in::<8191>(b"workspace-of-8191-words", first, second);
    count_in::<8191>(b"workspace-of-8191-words-no-table", b"", b"");
    count_in::<0>(b"workspace-of-no-words", first, second);
    count_in::<10000>(b"workspace-of-10000-words", first, second);
    show_in::<8191, 3584>(b"gap-in-8191-words", first, second, 0);
    show_in::<8192, 3583>(b"gap-in-3583-bytes", first, second, 0);
    show_in::<8192, 3583>(b"gap-in-3583-bytes-no-table", b"", b"", 0);
    show_in::<10000, 3600>(b"gap-0-in-3600-bytes", first, second, 0);
    show_in::<10000, 3600>(b"gap-1-in-3600-bytes", first, second, 1);
    show_in::<10000, 3600>(b"gap-last-number-in-3600-bytes", first, second, ONES);
    show_in::<10000, 3600>(b"gap-of-no-gaps", second, first, 0);
    show_in::<10000, 3600>(b"gap-of-a-refused-first-table", b"", second, 0);
    show_in::<10000, 3600>(b"gap-of-a-refused-second-table", first, b"", 0);
}
