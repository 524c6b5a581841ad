//! The lines of entries.

use oc_folder::{Cursor, Entry, Extent, Folder, Item, MAX_ENTRIES};
use std::alloc::Global;
use test_tools::Fault;

/// Appends a path, of which each byte that is not printable, a space and `%` are `%XX`.
pub fn put_path(out: &mut String, path: &[u8]) -> Result<(), Fault> {
    for byte in path {
        match *byte {
            b'!'..=b'~' if *byte != b'%' => out.push(char::from(*byte))?,
            _ => write!(out, "%{byte:02X}")?,
        }
    }
    Ok(())
}

/// Appends the size, the time and the place of a file.
pub fn put_extent(out: &mut String, extent: &Extent) -> Result<(), Fault> {
    let Extent { at, size, time } = *extent;
    Ok(write!(out, "file {size} {time} {at}")?)
}

/// Appends the line of an entry, and a comma.
fn put_entry(out: &mut String, entry: &Entry) -> Result<(), Fault> {
    match &entry.item {
        Item::File(extent) => {
            put_extent(out, extent)?;
            out.push(' ')?;
            put_path(out, entry.path.items())?;
        }
        Item::Link(text) => {
            out.push_str("link ")?;
            put_path(out, entry.path.items())?;
            out.push(' ')?;
            put_path(out, text.items())?;
        }
        Item::Directory => {
            out.push_str("dir ")?;
            put_path(out, entry.path.items())?;
        }
    }
    Ok(out.push_str(", ")?)
}

/// Appends the lines of all entries.
pub fn put_entries(alloc: Global, out: &mut String, folder: &Folder) -> Result<(), Fault> {
    let mut cursor = Cursor::new(alloc, b"".as_slice())?;
    for _ in 0..MAX_ENTRIES {
        match cursor.next_below(folder)? {
            Some(entry) => put_entry(out, entry)?,
            None => break,
        }
    }
    Ok(())
}
