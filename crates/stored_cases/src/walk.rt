// What the writer says of the records of a table, given to it one after the other.
use cases::text::first_bytes;
use refusals::Refusal;
use stored::entries::entries_of;
use stored::writer::{begin, write};

#[derive(Clone, Copy)]
pub enum Walked {
    // All records were written, so many bytes.
    Written(usize),
    // A cut or strange record stands here.
    Stopped(usize),
}

// Gives the records of a table to a fresh writer. It writes each record as long as it was read, so that it is as far in its buffer as the
// walk in the table.
pub(crate) fn write_records(table: &[u8], buffer: &mut [u8]) -> Result<Walked, Refusal> {
    let mut writer = begin();
    for entry in entries_of(table) {
        writer = write(writer, entry.item, entry.bytes, buffer)?;
    }
    if writer.at < table.len() {
        Ok(Walked::Stopped(writer.at))
    } else {
        Ok(Walked::Written(writer.at))
    }
}

// The first so many bytes of the buffer are the table's, all of them.
pub(crate) fn is_same(table: &[u8], buffer: &[u8], size: usize) -> bool {
    size == table.len() && first_bytes(buffer, size) == table
}
