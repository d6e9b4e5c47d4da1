// Where the first of two tables ends, by walking kinds.
ghost use Rattle.std.specs.Prelude.{◌≡◌, ◌≤◌, length};
ghost use Rattle.gaps.specs.Split.{first_end};

use stored::records::{Kind, kind_of, size_of};

/// Where the first table ends: behind the first record 05 met by walking kinds, or at the end of the input where there is none.
pub fn split(input: &[u8]) -> usize
    ensures value { result ≡ first_end input.now }
    ensures upper_bound { result ≤ length input.now }
{
    let mut left = input;
    // stays: no plainer: what is left behind a record is known only when its kind is read
    while let Some((byte, behind)) = left.split_first() {
        let kind = kind_of(*byte);
        match kind {
            Kind::End => return input.len() - behind.len(),
            Kind::Unknown => break,
            _ => match behind.split_at_checked(size_of(kind)) {
                Some((_, others)) => left = others,
                None => break,
            },
        }
    }
    input.len()
}
