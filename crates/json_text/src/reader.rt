// The whole text: sound, or the first byte that fails (20).
ghost use Rattle.std.specs.Prelude.{◌≡◌};
ghost use Rattle.json_text.specs.Machinery.Reading.{fault_of};

use crate::machine::{is_ended, start, step};
use crate::runs::run_of;

/// The place of the first byte that fails, if one does; the length where the text only ends too early.
pub fn json_fault(text: &[u8]) -> Option<usize>
    ensures { result ≡ fault_of text.now }
{
    let mut state = start();
    let mut at: usize = 0;
    // stays: no plainer, since the state says how far a step goes
    while at < text.len() {
        let Some(next) = step(state, text[at]) else {
            return Some(at);
        };
        at += 1;
        at += run_of(&text[at..], next.phase);
        state = next;
    }
    if is_ended(state) { None } else { Some(at) }
}
