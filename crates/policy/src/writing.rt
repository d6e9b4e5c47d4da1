// All wishes of a text through stored's writer.
ghost use Rattle.std.specs.Prelude.{◌≡◌};
ghost use Rattle.policy.specs.Machinery.Runs.{poured_of};

use crate::items::write_wish;
use records::cursor::wishes_of;
use stored::writer::begin;

/// Writes records up to the first that is refused, and says how many bytes they took.
pub fn write_all(text: &[u8], table: &mut [u8]) -> usize
    ensures size { result ≡ (poured_of text.now table.old).size }
    ensures left { table.new ≡ (poured_of text.now table.old).left }
{
    let mut writer = begin();
    for wished in wishes_of(text) {
        let Ok(after) = write_wish(text, writer, wished.wish, wished.place, table) else {
            return writer.at;
        };
        writer = after;
    }
    writer.at
}
