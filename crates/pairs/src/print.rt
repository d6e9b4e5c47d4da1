// What came out of a question, as a part of a line.
ghost use Rattle.std.specs.Prelude.{◌≡◌};
ghost use Rattle.refusals.specs.Numbers.{number_of};
ghost use Rattle.comparing.specs.Answers.{table_of};

use cases::print::print_number;
use cases::same::are_all;
use cases::text::{first_bytes, part_of};
use comparing::answers::{Refused, Shape};

/// A refusal by its numbers: which one, of which table (1, 2, or 0 for the comparison), and its place.
#[derive(Clone, Copy, Debug, PartialEq, Eq)]
pub struct Numbers {
    pub number: u8,
    pub table: u8,
    pub place: usize,
}

/// The numbers of a refused comparison.
pub fn numbers_of(refused: Refused) -> Numbers
    ensures number { result.number ≡ number_of refused.reason }
    ensures table { result.table ≡ table_of refused.table }
    ensures place { result.place ≡ refused.place }
{
    Numbers {
        number: u8::from(refused.reason),
        table: u8::from(refused.table),
        place: refused.place,
    }
}

pub(crate) fn print_refused(refused: Numbers) {
    io::write_all(1, b" refused");
    print_number(usize::from(refused.number));
    print_number(usize::from(refused.table));
    print_number(refused.place);
}

// A column that is there: its name, and the first so many bytes of its part of the value buffer. The rest of that part must be zero.
fn print_column(name: &[u8], part: &[u8], size: Option<usize>) {
    if let Some(size) = size {
        io::write_all(1, name);
        io::write_all(1, first_bytes(part, size));
    }
    if !are_all(part_of(part, size.unwrap_or(0), part.len()), 0) {
        io::write_all(1, b" rest not zero");
    }
}

/// An address in dotted decimal.
pub fn print_address(address: u32) {
    for (i, byte) in address.to_be_bytes().iter().enumerate() {
        if 0 < i {
            io::write_all(1, b".");
        }
        io::print_decimal(1, u64::from(*byte));
    }
}

// The columns of a gap, those that are there.
pub(crate) fn print_shape(shape: Shape, values: &[u8]) {
    let columns: [(&[u8], Option<usize>); 7] = [
        (b" p=", Some(shape.principal)),
        (b" a=", Some(shape.action)),
        (b" r=", Some(shape.resource)),
        (b" k0=", shape.vpc),
        (b" k1=", shape.prefix),
        (b" k2=", shape.vpce),
        (b" k3=", shape.referer),
    ];
    for (i, (name, size)) in columns.iter().enumerate() {
        print_column(name, part_of(values, 512 * i, 512 * i + 512), *size);
    }
    if let Some(address) = shape.address {
        io::write_all(1, b" ip=");
        print_address(address);
    }
}
