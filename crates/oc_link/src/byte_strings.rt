ghost use Rattle.std.specs.Prelude.{◌≡◌, ℕ, ◌-◌, ◌<◌, ◌≤◌, List, [], ◌∷◌, ◌++◌, length, IfOk, IfSome, slice_get, slice_range};
ghost use Rattle.std.specs.Option.{option_copied, option_map};
ghost use Rattle.oc_link.specs.ByteStrings.{grown, strings_in, AreStarts};

use std::alloc::{AllocError, Global};
use std::marker::Model;

/// Byte strings one after another in one buffer of a fixed size. Only the last string can grow.
#[derive(Debug, Drop)]
pub(crate) struct ByteStrings {
    bytes: Vec<u8>,
    /// The offset of the first byte of each string.
    starts: Vec<usize>,
    /// The bytes for which there is room.
    room: usize,
    /// The strings for which there is room.
    string_room: usize,
}

impl Model for ByteStrings {
    ghost use Rattle.std.specs.Prelude.{◌≤◌, ◌+◌, length, vec_len, vec_capacity};
    ghost use Rattle.oc_link.specs.ByteStrings.{ByteStringsView, strings_in, AreStarts};

    ghost Value = { ByteStringsView };

    ghost view = { λ r. record { strings = strings_in r.bytes.items r.starts.items; room = r.room; string_room = r.string_room } };

    ghost invariant = { λ r. (vec_len r.bytes + r.room ≤ vec_capacity r.bytes)
        × (vec_len r.starts + r.string_room ≤ vec_capacity r.starts)
        × AreStarts (length r.bytes.items) r.starts.items };
}

impl ByteStrings {
    /// An empty list, with room for these numbers of bytes and strings.
    pub(crate) fn new(
        alloc: Global,
        room: usize,
        string_room: usize,
    ) -> Result<ByteStrings, AllocError>
        ensures { IfOk result (λ r. r ≡ record { strings = []; room = room; string_room = string_room }) }
    {
        Ok(ByteStrings {
            bytes: Vec::with_capacity(alloc, room)?,
            starts: Vec::with_capacity(alloc, string_room)?,
            room,
            string_room,
        })
    }

    /// The number of strings.
    pub(crate) fn len(&self) -> usize
        ensures { result ≡ length self.now.strings }
    {
        self.starts.as_slice().len()
    }

    /// Begins another string, which is empty.
    pub(crate) fn begin(&mut self)
        requires { 0 < self.old.string_room }
        ensures { self.new ≡ record self.old { strings = self.old.strings ++ [] ∷ []; string_room = self.old.string_room - 1 } }
    {
        let end = self.bytes.as_slice().len();
        self.starts.push(end).unwrap();
        self.string_room -= 1;
    }

    /// Adds these bytes to the last string.
    pub(crate) fn extend(&mut self, more: &[u8])
        requires room { length more.now ≤ self.old.room }
        requires some { 0 < length self.old.strings }
        ensures { self.new ≡ record self.old
            { strings = grown self.old.strings more.now; room = self.old.room - length more.now } }
    {
        self.bytes.extend_from_slice(more).unwrap();
        self.room -= more.len();
    }

    /// The string at an index, counted from 0.
    pub(crate) fn get(&self, at: usize) -> Option<&[u8]>
        ensures { option_copied result ≡ slice_get self.now.strings at }
    {
        let bytes = self.bytes.as_slice();
        let starts = self.starts.as_slice();
        if at >= starts.len() {
            return None;
        }
        match first_ends(&starts[at..], bytes.len()) {
            Some((start, end)) => Some(&bytes[start..end]),
            None => None,
        }
    }
}

/// The begin and the end of the first string, by the offsets of all strings, in a buffer of this
/// length.
fn first_ends(starts: &[usize], len: usize) -> Option<(usize, usize)>
    requires { AreStarts len starts.now }
    ensures within { IfSome result (λ ends. (ends.0 ≤ ends.1) × (ends.1 ≤ len)) }
    ensures string { (bytes : List ℕ) → length bytes ≡ len
        → slice_get (strings_in bytes starts.now) 0 ≡ option_map (λ ends. slice_range bytes ends.0 ends.1) result }
{
    match starts {
        [] => None,
        [start] => Some((*start, len)),
        [start, end, ..] => Some((*start, *end)),
    }
}
