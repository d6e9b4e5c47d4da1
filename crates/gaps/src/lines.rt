// The lines that the gap program prints, laid out in a lent buffer.
ghost use Rattle.std.specs.Prelude.{◌≡◌, ◌++◌, ◌+◌, ◌≤◌, ◌<◌, length, is_some, unwrap_or};
ghost use Rattle.judging.specs.Requests.{key_value, number, absent};
ghost use Rattle.stored.specs.Choice.{pick};
ghost use Rattle.gaps.specs.Lines.{dotted, count_line, refusal_line, shown, needed_shown, keys_shown, gap_line};
ghost use Rattle.json_text.specs.Texts.{ascii};
ghost use Rattle.printing.specs.Laying.{Laid};
ghost use Rattle.comparing.specs.Answers.{as_shape};
ghost use Rattle.comparing.specs.Compared.{shown_bytes, request_shown};

use comparing::answers::Shape;
use comparing::limits::VALUE_ROOM;
use printing::{put, put_decimal, put_named, put_number};

/// Bytes that a line has at most.
pub const LINE: usize = 4096;

// Lays an address down in dotted decimal.
fn put_dotted(out: &mut [u8], at: usize, address: u32) -> usize
    requires { at + 83 ≤ length out.old }
    ensures { Laid out.old at (dotted address) 83 out.new result }
{
    let first = put_decimal(out, at, u64::from(address / 0x1000000 % 0x100));
    let second = put_number(out, first, b".", u64::from(address / 0x10000 % 0x100));
    let third = put_number(out, second, b".", u64::from(address / 0x100 % 0x100));
    put_number(out, third, b".", u64::from(address % 0x100))
}

// Lays the address down behind its name, where it is there.
fn put_address(out: &mut [u8], at: usize, address: Option<u32>) -> usize
    requires { at + 87 ≤ length out.old }
    ensures { Laid out.old at (shown (ascii " ip=") (pick (is_some address) (number (unwrap_or address 0)) absent)) 87 out.new result }
{
    match address {
        Some(address) => {
            let next = put(out, at, b" ip=");
            put_dotted(out, next, address)
        }
        None => at,
    }
}

// A value of one of columns 0 to 6 in the value buffer.
fn value_in(values: &[u8], column: usize, size: usize) -> &[u8]
    requires { (3584 ≤ length values.now) × (column < 7) }
    ensures { (result.now ≡ shown_bytes values.now column size) × (length result.now ≤ 512) }
{
    let room = &values[column * VALUE_ROOM..column * VALUE_ROOM + VALUE_ROOM];
    &room[..size.min(room.len())]
}

// Lays the value of a column down behind its name, where it is there.
fn put_column(
    out: &mut [u8],
    at: usize,
    name: &[u8],
    values: &[u8],
    column: usize,
    size: Option<usize>,
) -> usize
    requires { (at + (length name.now + 512) ≤ length out.old) × (3584 ≤ length values.now) × (column < 7) }
    ensures { Laid out.old at (shown name.now (key_value (is_some size) (shown_bytes values.now column (unwrap_or size 0)))) (length name.now + 512) out.new result }
{
    match size {
        Some(size) => put_named(out, at, name, value_in(values, column, size)),
        None => at,
    }
}

/// The line for a number of gaps.
pub fn count_line(out: &mut [u8], n: u64) -> usize
    requires { 4096 ≤ length out.old }
    ensures { Laid out.old 0 (count_line n) 26 out.new result }
{
    let next = put_number(out, 0, b"gaps ", n);
    put(out, next, b"\n")
}

/// The line for a refusal.
// stays: what may not change refusal_line: it lays any numbers down.
pub fn refusal_line(out: &mut [u8], number: u8, table: u8, place: usize) -> usize
    requires { 4096 ≤ length out.old }
    ensures { Laid out.old 0 (refusal_line number table place) 71 out.new result }
{
    let first = put_number(out, 0, b"refused ", u64::from(number));
    let second = put_number(out, first, b" ", u64::from(table));
    let third = put_number(out, second, b" ", place as u64);
    put(out, third, b"\n")
}

// Lays columns 0 to 2 down.
fn put_needed(out: &mut [u8], at: usize, values: &[u8], shape: Shape) -> usize
    requires { (at + 1545 ≤ length out.old) × (3584 ≤ length values.now) }
    ensures { Laid out.old at (needed_shown (request_shown (as_shape shape) values.now)) 1545 out.new result }
{
    let principal = put_column(out, at, b" p=", values, 0, Some(shape.principal));
    let action = put_column(out, principal, b" a=", values, 1, Some(shape.action));
    put_column(out, action, b" r=", values, 2, Some(shape.resource))
}

// Lays columns 3 to 6 down.
fn put_keys(out: &mut [u8], at: usize, values: &[u8], shape: Shape) -> usize
    requires { (at + 2064 ≤ length out.old) × (3584 ≤ length values.now) }
    ensures { Laid out.old at (keys_shown (request_shown (as_shape shape) values.now)) 2064 out.new result }
{
    let vpc = put_column(out, at, b" k0=", values, 3, shape.vpc);
    let prefix = put_column(out, vpc, b" k1=", values, 4, shape.prefix);
    let vpce = put_column(out, prefix, b" k2=", values, 5, shape.vpce);
    put_column(out, vpce, b" k3=", values, 6, shape.referer)
}

/// The line for gap k, whose values stand in the value buffer.
pub fn gap_line(out: &mut [u8], k: u64, values: &[u8], shape: Shape) -> usize
    requires { (4096 ≤ length out.old) × (3584 ≤ length values.now) }
    ensures { Laid out.old 0 (gap_line k (request_shown (as_shape shape) values.now)) 4096 out.new result }
{
    let number = put_decimal(out, 0, k);
    let needed = put_needed(out, number, values, shape);
    let keys = put_keys(out, needed, values, shape);
    let address = put_address(out, keys, shape.address);
    put(out, address, b"\n")
}
