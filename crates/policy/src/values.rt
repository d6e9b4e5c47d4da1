// A string's bytes, its escapes taken off, in an array.
ghost use Rattle.std.specs.Prelude.{◌≡◌, ◌≤◌, length, take, drop};
ghost use Rattle.json_text.specs.Machinery.Pieces.{content_of};

use json_text::pieces::string_at;

/// Copies the bytes of a string, as many as there is room for, and says how many these are.
pub fn copy_string(text: &[u8], from: usize, bytes: &mut [u8]) -> usize
    ensures inside { result ≤ length bytes.old }
    ensures copied { take result bytes.new ≡ take (length bytes.old) (content_of (drop from text.now)) }
{
    let mut said = string_at(text, from);
    for (i, byte) in bytes.iter_mut().enumerate() {
        let Some(next) = said.next() else {
            return i;
        };
        *byte = next;
    }
    bytes.len()
}
