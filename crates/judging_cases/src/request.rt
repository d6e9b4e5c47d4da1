// A request as its line gives it: `p=`, `a=`, `r=`, `k0=` to `k3=` and `ip=`, each with the column's text up to the next blank. A
// key that is not named is absent. With `-` in front a key is absent too, whatever its text.
use cases::laying::{digit_of, is_digit, lay_text};
use cases::text::{begins_with, part_of};
use judging::request::Request;

// What a line says of a column: whether it is there, and its text.
// stays: what may not change is where the columns stand in the room, in which the text of an absent one takes its place too.
#[derive(Clone, Copy)]
struct Word<'a> {
    present: bool,
    text: &'a [u8],
}

// A column whose bytes were laid into the room: whether it is there, and where they stand.
// stays: what may not change is that an element with `-` in front is what its text says, as one without.
#[derive(Clone, Copy)]
struct Column {
    present: bool,
    from: usize,
    to: usize,
}

impl Column {
    fn bytes(self, room: &[u8]) -> &[u8] {
        part_of(room, self.from, self.to)
    }

    fn key(self, room: &[u8]) -> Option<&[u8]> {
        self.present.then_some(self.bytes(room))
    }
}

// What stands behind a name, where a word begins with it.
fn behind_name<'a>(word: &'a [u8], name: &[u8]) -> Option<&'a [u8]> {
    begins_with(word, name).then_some(part_of(word, name.len(), word.len()))
}

// The first word that gives a column, perhaps as absent.
fn word_of<'a>(line: &'a [u8], name: &[u8]) -> Word<'a> {
    for word in line.split(|b| *b == b' ') {
        if let Some(text) = behind_name(word, name) {
            return Word {
                present: true,
                text,
            };
        }
        if let Some(absent) = behind_name(word, b"-")
            && let Some(text) = behind_name(absent, name)
        {
            return Word {
                present: false,
                text,
            };
        }
    }
    Word {
        present: false,
        text: &[],
    }
}

// Lays the bytes of a column into the room from a place on.
fn lay_column(line: &[u8], name: &[u8], room: &mut [u8], from: usize) -> Column {
    let word = word_of(line, name);
    Column {
        present: word.present,
        from,
        to: lay_text(word.text, room, from),
    }
}

// An address with one more sign of its dotted decimal.
fn address_with(address: u32, sign: u8) -> u32 {
    if sign == b'.' {
        address % 0x1000000 * 256
    } else if is_digit(sign) {
        let last = (address % 256 * 10 + u32::from(digit_of(sign))) % 256;
        address / 256 % 0x1000000 * 256 + last
    } else {
        address
    }
}

// The address that a text in dotted decimal stands for.
fn address_of(text: &[u8]) -> u32 {
    text.iter()
        .fold(0, |address, sign| address_with(address, *sign))
}

// Lays the columns of a line's request into the room, one behind the other.
pub(crate) fn lay_request<'a>(line: &[u8], room: &'a mut [u8]) -> Request<'a> {
    let principal = lay_column(line, b"p=", room, 0);
    let action = lay_column(line, b"a=", room, principal.to);
    let resource = lay_column(line, b"r=", room, action.to);
    let vpc = lay_column(line, b"k0=", room, resource.to);
    let prefix = lay_column(line, b"k1=", room, vpc.to);
    let vpce = lay_column(line, b"k2=", room, prefix.to);
    let referer = lay_column(line, b"k3=", room, vpce.to);
    let address = word_of(line, b"ip=");
    Request {
        principal: principal.bytes(room),
        action: action.bytes(room),
        resource: resource.bytes(room),
        vpc: vpc.key(room),
        prefix: prefix.key(room),
        vpce: vpce.key(room),
        referer: referer.key(room),
        address: address.present.then_some(address_of(address.text)),
    }
}
