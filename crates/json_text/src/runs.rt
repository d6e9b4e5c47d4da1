// Runs of bytes that leave the machine where it is: blanks between tokens, and the plain bytes of a string.
ghost use Rattle.std.specs.Prelude.{◌≡◌, ◌≤◌, length};
ghost use Rattle.std.specs.List.{prefix_len};
ghost use Rattle.json_text.specs.Bytes.{is_blank, is_plain};
ghost use Rattle.json_text.specs.Machinery.Runs.{is_in_string, is_between_tokens, run_of};

use crate::bytes::{is_blank, is_plain};
use crate::machine::Phase;
use crate::strings::Inside;

// In a string, between two of its characters.
fn is_in_string(phase: Phase) -> bool
    ensures { result ≡ is_in_string phase }
{
    matches!(phase, Phase::Text(_, Inside::Plain))
}

// Between two tokens.
fn is_between_tokens(phase: Phase) -> bool
    ensures { result ≡ is_between_tokens phase }
{
    !matches!(phase, Phase::Text(_, _) | Phase::Number(_) | Phase::Word(_))
}

// stays: no plainer as one function over a test of a byte, whose clause and answers about closures are longer than the two chains
fn plain_run(bytes: &[u8]) -> usize
    ensures run { result ≡ prefix_len is_plain bytes.now }
    ensures within { result ≤ length bytes.now }
{
    bytes.iter().take_while(|byte| is_plain(**byte)).count()
}

fn blank_run(bytes: &[u8]) -> usize
    ensures run { result ≡ prefix_len is_blank bytes.now }
    ensures within { result ≤ length bytes.now }
{
    bytes.iter().take_while(|byte| is_blank(**byte)).count()
}

// How many of the first bytes leave the machine in a phase.
pub(crate) fn run_of(bytes: &[u8], phase: Phase) -> usize
    ensures run { result ≡ run_of phase bytes.now }
    ensures within { result ≤ length bytes.now }
{
    if is_in_string(phase) {
        plain_run(bytes)
    } else if is_between_tokens(phase) {
        blank_run(bytes)
    } else {
        0
    }
}
