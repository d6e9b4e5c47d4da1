// Whether lent memory holds one word or one byte throughout.
ghost use Rattle.std.specs.Prelude.{◌≡◌};
ghost use Rattle.cases.specs.Text.{all_equal};

/// All words, or all bytes, are this one.
pub fn are_all<T: PartialEq + Copy>(items: &[T], one: T) -> bool
    ensures { result ≡ all_equal T.eq one items.now }
{
    // stays: tried with `all`, and the proof does not close: what `all` gives of items of any type
    for item in items {
        if *item != one {
            return false;
        }
    }
    true
}
