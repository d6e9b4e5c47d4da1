// The writer alone, on items that no byte string can show: values that no kind stands for, short buffers, and places near the
// table's limit. The buffer holds one filling byte before each, and what of it has changed is printed.
use cases::print::print_refusal;
use cases::text::first_bytes;
use refusals::Refusal;
use stored::items::{Column, Effect, Item, Key, Operator};
use stored::limits::MOST_BYTES;
use stored::writer::{Writer, begin, write};

// Stands in no record of these cases.
const FILLING: u8 = 0xEE;

// A byte that has changed.
fn is_changed(byte: u8) -> bool {
    byte != FILLING
}

// The first place that has changed and the place behind the last, if any has.
fn changed(buffer: &[u8]) -> Option<(usize, usize)> {
    let first = buffer.iter().position(|byte| is_changed(*byte))?;
    let last = buffer.iter().rposition(|byte| is_changed(*byte))?;
    Some((first, last + 1))
}

fn print_buffer(buffer: &[u8]) {
    let Some((first, behind)) = changed(buffer) else {
        io::write_all(1, b"; buffer kept\n");
        return;
    };
    io::write_all(1, b"; buffer changed");
    io::write_all(1, b" ");
    io::print_decimal(1, first as u64);
    io::write_all(1, b" to ");
    io::print_decimal(1, behind as u64);
    io::write_all(1, b"\n");
}

fn print_answer(answer: Result<Writer, Refusal>) {
    match answer {
        Ok(next) => {
            io::write_all(1, b" added, next at ");
            io::print_decimal(1, next.at as u64);
        }
        Err(refusal) => {
            io::write_all(1, b" refused");
            print_refusal(u8::from(refusal.reason), refusal.place);
        }
    }
}

// Gives one item to a writer, with the first bytes of the room as its buffer.
fn write_in(
    writer: Writer,
    item: Item,
    value: &[u8],
    size: usize,
    room: &mut [u8],
) -> Result<Writer, Refusal> {
    let size = size.min(room.len());
    write(writer, item, value, &mut room[..size])
}

// Gives one item to a writer with a buffer of some size, and prints what came of it.
fn run_item(name: &[u8], writer: Writer, item: Item, value: &[u8], size: usize) {
    let mut room = [FILLING; MOST_BYTES];
    let answer = write_in(writer, item, value, size, &mut room);
    io::write_all(1, name);
    print_answer(answer);
    print_buffer(&room);
}

// The same for a value of some bytes, at most 129, all of them alike.
fn run_value_in(name: &[u8], writer: Writer, byte: u8, length: usize, size: usize) {
    let value = [byte; 129];
    run_item(name, writer, Item::Value, first_bytes(&value, length), size);
}

fn run_value(name: &[u8], writer: Writer, byte: u8, length: usize) {
    run_value_in(name, writer, byte, length, MOST_BYTES);
}

fn run_end(name: &[u8], writer: Writer, size: usize) {
    run_item(name, writer, Item::End, b"", size);
}

fn run_start(name: &[u8], rows: u8, size: usize) {
    run_item(name, begin(), Item::Start(rows), b"", size);
}

fn run_network(name: &[u8], writer: Writer) {
    run_item(name, writer, Item::Network(0x0B162100, 24), b"", MOST_BYTES);
}

// The writer behind an item that it takes, a value's byte being `a`.
fn after(writer: Writer, item: Item) -> Writer {
    let value = [b'a'];
    let mut buffer = [0u8; 32];
    write(writer, item, &value, &mut buffer).unwrap_or(writer)
}

// A list of principals is open.
fn at_principals() -> Writer {
    let announced = after(begin(), Item::Start(1));
    let opened = after(announced, Item::Statement(Effect::Allow));
    after(opened, Item::Column(Column::Principal))
}

// The writer behind a column with one value.
fn after_column(writer: Writer, column: Column) -> Writer {
    let opened = after(writer, Item::Column(column));
    after(opened, Item::Value)
}

// The one statement is whole.
fn at_end() -> Writer {
    let principals = after(at_principals(), Item::Value);
    let actions = after_column(principals, Column::Action);
    after_column(actions, Column::Resource)
}

// A list of networks is open.
fn at_networks() -> Writer {
    after(
        at_end(),
        Item::Condition(Operator::IpAddress, Key::SourceIp),
    )
}

// The same writer at another place.
fn moved(writer: Writer, at: usize) -> Writer {
    Writer { at, ..writer }
}

// Values of no bytes and over 128: 6 in its turn, after 4 and before 7, 8, 1 and 14.
fn run_lengths() {
    let principals = at_principals();
    let networks = at_networks();
    let limit = moved(principals, MOST_BYTES);
    let ended = after(at_end(), Item::End);
    run_value(b"value-of-0-bytes", principals, b'a', 0);
    run_value(b"value-of-1-byte", principals, b'a', 1);
    run_value(b"value-of-128-bytes", principals, b'a', 128);
    run_value(b"value-of-129-bytes", principals, b'a', 129);
    run_value(b"value-of-0-bytes-out-of-turn", begin(), b'a', 0);
    run_value(b"value-of-129-bytes-after-the-end", ended, b'a', 129);
    run_value(b"value-of-129-bytes-out-of-range", principals, b' ', 129);
    run_value(b"value-of-129-stars-as-principal", principals, b'*', 129);
    run_value(b"value-of-0-bytes-among-networks", networks, b'a', 0);
    run_value(b"value-of-1-byte-among-networks", networks, b'a', 1);
    run_value(b"value-of-0-bytes-at-the-limit", limit, b'a', 0);
    run_value_in(b"value-of-0-bytes-in-no-buffer", principals, b'a', 0, 0);
}

// Buffers: 14 only where nothing else is wrong.
fn run_buffers() {
    let principals = at_principals();
    run_value_in(b"buffer-one-byte-too-short", principals, b'a', 1, 7);
    run_value_in(b"buffer-just-long-enough", principals, b'a', 1, 8);
    run_value_in(b"buffer-shorter-than-the-place", principals, b'a', 1, 5);
    run_value_in(
        b"byte-out-of-range-in-a-short-buffer",
        principals,
        b' ',
        1,
        7,
    );
    run_start(b"start-in-no-buffer", 1, 0);
    run_start(b"start-in-a-buffer-of-1-byte", 1, 1);
    run_start(b"start-in-a-buffer-of-2-bytes", 1, 2);
    run_start(b"start-of-33-in-no-buffer", 33, 0);
}

// Values and networks near 16,384: 1 where the record would pass it.
fn run_limits() {
    let principals = at_principals();
    let networks = at_networks();
    run_value(
        b"value-that-just-fits-the-table",
        moved(principals, 16382),
        b'a',
        1,
    );
    run_value(
        b"value-that-would-pass-the-limit",
        moved(principals, 16383),
        b'a',
        1,
    );
    run_value(
        b"long-value-that-just-fits-the-table",
        moved(principals, 16255),
        b'a',
        128,
    );
    run_value(
        b"long-value-that-would-pass-the-limit",
        moved(principals, 16256),
        b'a',
        128,
    );
    run_value(
        b"byte-out-of-range-past-the-limit",
        moved(principals, 16383),
        b' ',
        1,
    );
    run_network(b"network-that-just-fits-the-table", moved(networks, 16378));
    run_network(b"network-that-would-pass-the-limit", moved(networks, 16379));
}

// The end near 16,384: 1 as for every record, and before 14.
fn run_ends() {
    let whole = at_end();
    run_end(b"end-that-just-fits-the-table", moved(whole, 16383), 16384);
    run_end(b"end-that-would-pass-the-limit", moved(whole, 16384), 16384);
    run_end(b"end-at-a-place-past-the-limit", moved(whole, 16385), 16384);
    run_end(
        b"end-that-would-pass-limit-and-buffer",
        moved(whole, 16384),
        0,
    );
    run_end(
        b"end-that-fits-the-limit-not-the-buffer",
        moved(whole, 16383),
        16383,
    );
}

pub(crate) fn run_items() {
    run_lengths();
    run_buffers();
    run_limits();
    run_ends();
}
