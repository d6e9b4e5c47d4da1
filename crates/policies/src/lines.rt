// The line that is printed for a policy that is refused, laid out in a lent buffer.
ghost use Rattle.std.specs.Prelude.{◌≤◌, length};
ghost use Rattle.printing.specs.Laying.{Laid};
ghost use Rattle.policies.specs.Lines.{refusal_line};

use printing::{put, put_number};

/// Bytes that a line has at most.
pub const LINE: usize = 64;

/// The line for a refusal.
// stays: what may not change refusal_line: it lays any number down.
pub fn refusal_line(out: &mut [u8], number: u8, place: usize) -> usize
    requires { 64 ≤ length out.old }
    ensures { Laid out.old 0 (refusal_line number place) 50 out.new result }
{
    let first = put_number(out, 0, b"refused ", u64::from(number));
    let second = put_number(out, first, b" ", place as u64);
    put(out, second, b"\n")
}
