// All wishes of a text through stored's state machine, without a buffer.
ghost use Rattle.std.specs.Prelude.{◌≡◌, ◌+◌};
ghost use Rattle.policy.specs.Machinery.Runs.{as_dried, capped, dried_of};

use crate::items::try_wish;
use records::cursor::wishes_of;
use refusals::Refusal;
use stored::limits::MOST_BYTES;
use stored::writer::begin;

// A sum of bytes, as far as it has to be told.
fn added(size: usize, more: usize) -> usize
    ensures { result ≡ capped (size + more) }
{
    size.saturating_add(more).min(MOST_BYTES + 1)
}

/// The bytes that all records would take, where over 16,384 it is not told how many; or the refusal of the first wish that is refused.
pub fn dry_run(text: &[u8]) -> Result<usize, Refusal>
    ensures { as_dried result ≡ dried_of text.now }
{
    let mut state = begin().state;
    let mut size: usize = 0;
    for wished in wishes_of(text) {
        let place = wished.place;
        match try_wish(text, state, wished.wish, place) {
            Ok((after, more)) => {
                state = after;
                size = added(size, more);
            }
            Err(reason) => return Err(Refusal { reason, place }),
        }
    }
    Ok(size)
}
