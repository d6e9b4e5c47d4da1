// Words of the workspace: all of them zero, and rows of eight.
ghost use Rattle.std.specs.Prelude.{◌≡◌, ◌+◌, ◌*◌, ◌≤◌, ◌<◌, ◌↔◌, length, replicate, IsTrue};
ghost use Rattle.std.proofs.lemmas.List.Edits.{sets};
ghost use Rattle.states.specs.Machinery.Rows.{row_at};
ghost use Rattle.states.specs.Machinery.Search.{FirstAt};

/// All words are zero.
pub fn clear(words: &mut [u64])
    ensures { words.new ≡ replicate (length words.old) 0 }
{
    words.fill(0);
}

/// Row i.
pub fn row_at(words: &[u64], i: usize) -> [u64; 8]
    requires { i * 8 + 8 ≤ length words.now }
    ensures { result ≡ row_at words.now i }
{
    let mut row = [0u64; 8];
    row.copy_from_slice(&words[i * 8..i * 8 + 8]);
    row
}

// Lays row i down and changes no other word.
pub(crate) fn put_row(words: &mut [u64], i: usize, row: [u64; 8])
    requires { i * 8 + 8 ≤ length words.old }
    ensures { words.new ≡ sets words.old (i * 8) row }
{
    words[i * 8..i * 8 + 8].copy_from_slice(&row);
}

// Whether row i is this one.
pub(crate) fn is_row(words: &[u64], i: usize, row: [u64; 8]) -> bool
    requires { i * 8 + 8 ≤ length words.now }
    ensures { IsTrue result ↔ (row_at words.now i ≡ row) }
{
    words[i * 8..i * 8 + 8] == row[..]
}

// The word by which a row is told from others first: the last one that is not zero, or the first, since few rows agree there. The search is
// right whichever word it is.
fn telling_word(row: [u64; 8]) -> usize
    ensures { result < 8 }
{
    row.iter().rposition(|&word| word != 0).unwrap_or(0)
}

// The lowest of n rows that is this one.
pub(crate) fn find_row(words: &[u64], n: usize, row: [u64; 8]) -> Option<usize>
    requires { n * 8 ≤ length words.now }
    ensures { FirstAt words.now n row result }
{
    let word = telling_word(row);
    let told = row[word];
    let (rows, _) = words[..n * 8].as_chunks::<8>();
    for (i, other) in rows.iter().enumerate() {
        if other[word] == told && *other == row {
            return Some(i);
        }
    }
    None
}
