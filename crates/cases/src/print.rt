// Numbers of an answer, each behind a blank.

pub fn print_number(number: usize) {
    io::write_all(1, b" ");
    io::print_decimal(1, number as u64);
}

/// The number of a refusal and its place.
// stays: what may not change print_refusal: it prints any numbers.
pub fn print_refusal(number: u8, place: usize) {
    print_number(usize::from(number));
    print_number(place);
}
