// Strings are read here: the bytes of one, its escapes read, one after the other from the byte behind its opening quote. (`strings` holds the machine's steps inside one.)
ghost use Rattle.std.specs.Prelude.{◌≡◌, ◌<◌, get_or, drop};
ghost use Rattle.json_text.specs.Bytes.{hex_of};
ghost use Rattle.json_text.specs.Choice.{same_bytes};
ghost use Rattle.json_text.specs.Machinery.Pieces.{escape_of, piece_of, content_of, bytes_left};

// A byte of a string, and how many bytes of the text it takes.
#[derive(Clone, Copy, Debug)]
struct Piece {
    byte: u8,
    wide: usize,
}

// The byte at a place, 0 past the end.
fn byte_or_zero(bytes: &[u8], place: usize) -> u8
    ensures { result ≡ get_or bytes.now place 0 }
{
    bytes.get(place).copied().unwrap_or(0)
}

fn hex_of(byte: u8) -> u8
    ensures value { result ≡ hex_of byte }
    ensures small { result < 16 }
{
    if byte <= b'9' {
        byte % 16
    } else {
        (byte % 16 + 9) % 16
    }
}

// What stands behind a backslash.
fn escape_of(bytes: &[u8]) -> Piece
    ensures { Some result ≡ escape_of bytes.now }
{
    match byte_or_zero(bytes, 1) {
        b'u' => Piece {
            byte: byte_or_zero(bytes, 4) % 8 * 16 + hex_of(byte_or_zero(bytes, 5)),
            wide: 6,
        },
        byte => Piece { byte, wide: 2 },
    }
}

// The first byte of a string, if it does not end here.
fn piece_of(bytes: &[u8]) -> Option<Piece>
    ensures { result ≡ piece_of bytes.now }
{
    match *bytes.first()? {
        b'"' => None,
        b'\\' => Some(escape_of(bytes)),
        byte => Some(Piece { byte, wide: 1 }),
    }
}

// The bytes from a place on, none past the end.
fn behind(bytes: &[u8], place: usize) -> &[u8]
    ensures { result.now ≡ drop place bytes.now }
{
    &bytes[place.min(bytes.len())..]
}

/// A place further on, at most the text's end.
pub fn advance(text: &[u8], at: usize, far: usize) -> usize
    ensures { drop result text.now ≡ drop far (drop at text.now) }
{
    if at < text.len() && far < text.len() - at {
        at + far
    } else {
        text.len()
    }
}

/// The bytes of a string that are still to come.
#[derive(Clone, Copy, Debug)]
pub struct StringBytes<'a> {
    rest: &'a [u8],
}

/// The bytes of the string that begins at a place.
#[tactic(auto, unfolding(crate::specs::Machinery::Pieces::bytes_left))]
pub fn string_at(text: &[u8], from: usize) -> StringBytes
    ensures { bytes_left result ≡ content_of (drop from text.now) }
{
    StringBytes {
        rest: behind(text, from),
    }
}

impl<'a> Iterator for StringBytes<'a> {
    ghost use Rattle.std.specs.Iterator.{YieldsFirst, item_count};
    ghost use Rattle.json_text.specs.Machinery.Pieces.{bytes_left};

    type Item = u8;

    ghost next_gives = { YieldsFirst bytes_left };

    ghost remaining = { item_count bytes_left };

    #[inline(always)]
    fn next(&mut self) -> Option<u8> {
        let piece = piece_of(self.rest)?;
        self.rest = behind(self.rest, piece.wide);
        Some(piece.byte)
    }
}

/// The string that begins at a place says these bytes.
pub fn string_is(text: &[u8], from: usize, name: &[u8]) -> bool
    ensures { result ≡ same_bytes (content_of (drop from text.now)) name.now }
{
    string_at(text, from).eq(name.iter().copied())
}
