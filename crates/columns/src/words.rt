// The words of a plan, which lie in the workspace as numbers.
ghost use Rattle.std.specs.Prelude.{◌≡◌, ◌^◌, ◌<◌};
ghost use Rattle.columns.specs.Machinery.Words.{number_of, word_of};

// What a word of a plan says: a statement begins, a list of the column opens, or what stands in such a list, a value by its last position or a
// network.
#[derive(Clone, Copy, Debug, PartialEq, Eq)]
pub(crate) enum Word {
    Statement,
    List,
    NegatedList,
    Content(u64),
}

// The number of the first content.
const CONTENT: u64 = 4;

impl Word {
    // The number that a word lies in the workspace as.
    pub(crate) fn number(self) -> u64
        requires { number_of self < 2 ^ 64 }
        ensures { result ≡ number_of self }
    {
        match self {
            Word::Statement => 1,
            Word::List => 2,
            Word::NegatedList => 3,
            Word::Content(content) => CONTENT + content,
        }
    }

    // The word that a number is; there is no word 0, which may be any.
    pub(crate) fn of(number: u64) -> Self
        ensures { result ≡ word_of number }
    {
        match number {
            1 => Word::Statement,
            0 | 2 => Word::List,
            3 => Word::NegatedList,
            _ => Word::Content(number - CONTENT),
        }
    }
}
