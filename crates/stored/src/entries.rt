// The records of a table as an iterator: one entry after the other, from the first on, up to the first record that is cut or strange.
ghost use Rattle.std.specs.Prelude.{◌≡◌, length};
ghost use Rattle.stored.specs.Entries.{entries_of};
ghost use Rattle.stored.specs.EntriesLeft.{entries_left};
ghost use Rattle.stored.specs.Machinery.Placing.{HasKind, HasKind-prop};

use crate::items::Item;
use crate::records::record_at;

/// A record's item, and the bytes of its body: those of a value stand beside its item.
#[derive(Clone, Copy, Debug)]
pub struct Entry<'a> {
    /// What the record says.
    pub item: Item,
    /// The bytes of its body.
    pub bytes: &'a [u8],
    pub ghost has_kind: { HasKind item (length bytes.now) } by { HasKind-prop item (length bytes.now) },
}

/// The records of the bytes from a record on.
#[derive(Clone, Copy, Debug)]
pub struct Entries<'a> {
    rest: &'a [u8],
}

/// The records of a table.
#[tactic(auto, unfolding(crate::specs::EntriesLeft::entries_left))]
pub fn entries_of(table: &[u8]) -> Entries
    ensures { entries_left result ≡ entries_of table.now }
{
    Entries { rest: table }
}

impl<'a> Iterator for Entries<'a> {
    ghost use Rattle.std.specs.Iterator.{YieldsFirstBy, item_count};
    ghost use Rattle.stored.specs.Entries.{entry_of};
    ghost use Rattle.stored.specs.EntriesLeft.{entries_left};

    type Item = Entry<'a>;

    ghost next_gives = { YieldsFirstBy (λ entry. entry_of entry.item entry.bytes.now) entries_left };

    ghost remaining = { item_count entries_left };

    #[inline(always)]
    fn next(&mut self) -> Option<Entry<'a>> {
        let record = record_at(self.rest, 0).ok()?;
        let end = record.start + record.size;
        let bytes = &self.rest[record.start..end];
        self.rest = &self.rest[end..];
        Some(Entry {
            item: record.item,
            bytes,
        })
    }
}
