// Strings compared without regard to the case of ASCII letters.
ghost use Rattle.std.specs.Prelude.{◌≡◌, map, drop};
ghost use Rattle.json_text.specs.Choice.{same_bytes};
ghost use Rattle.json_text.specs.Machinery.Pieces.{content_of};
ghost use Rattle.members.specs.Members.{small};

use json_text::pieces::string_at;

// A capital letter as a small one.
fn small_letter(byte: u8) -> u8
    ensures { result ≡ small byte }
{
    match byte {
        b'A'..=b'Z' => byte + 0x20,
        _ => byte,
    }
}

// The string that begins at a place says this name, written in small letters.
pub(crate) fn string_is_folded(text: &[u8], from: usize, name: &[u8]) -> bool
    ensures { result ≡ same_bytes (map small (content_of (drop from text.now))) name.now }
{
    string_at(text, from)
        .map(small_letter)
        .eq(name.iter().copied())
}
