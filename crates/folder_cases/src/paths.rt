//! Paths that are asked for, and what they lead to.

use crate::reading::feed;
use crate::words::{put_extent, put_path};
use oc_folder::{Cursor, Folder, Found, Index, MAX_ENTRIES};
use std::alloc::Global;
use test_tools::{Fault, RowFields, spelled_in};

/// More paths than a row has.
const MOST_PATHS: usize = 1_000;

/// Appends the words of a row, which has paths and the bytes of a group: what each path leads to.
pub fn put_words(alloc: Global, given: &str, said: &mut String) -> Result<(), Fault> {
    let (paths, archive) = given.split_once(' ').unwrap_or((given, ""));
    let bytes = spelled_in(alloc, archive)?;
    let mut index = Index::new(alloc)?;
    for _ in 0..bytes.len() {
        if !feed(alloc, &mut index, &bytes)? {
            break;
        }
    }
    let mut paths = RowFields::of(paths, ',');
    for _ in 0..MOST_PATHS {
        if paths.is_empty() {
            break;
        }
        let path = spelled_in(alloc, paths.text())?;
        put_found(alloc, said, index.shown(), &path)?;
    }
    Ok(())
}

fn put_found(alloc: Global, said: &mut String, folder: &Folder, path: &[u8]) -> Result<(), Fault> {
    if !said.is_empty() {
        said.push_str(", ")?;
    }
    put_path(said, path)?;
    said.push(' ')?;
    match folder.follow(alloc, path)? {
        Found::Missing => Ok(said.push_str("missing")?),
        Found::File(extent) => put_extent(said, &extent),
        Found::Directory(dir) => put_directory(alloc, said, folder, dir.items()),
    }
}

/// Appends the path of a directory, and those of the entries in it.
fn put_directory(
    alloc: Global,
    said: &mut String,
    folder: &Folder,
    dir: &[u8],
) -> Result<(), Fault> {
    said.push_str("dir /")?;
    put_path(said, dir)?;
    let mut cursor = Cursor::new(alloc, dir)?;
    for _ in 0..MAX_ENTRIES {
        let Some(entry) = cursor.next_child(folder)? else {
            break;
        };
        said.push(' ')?;
        put_path(said, entry.path.items())?;
    }
    Ok(())
}
