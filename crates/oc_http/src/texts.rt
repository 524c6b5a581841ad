//! Texts that are made of parts, and copies of bytes.

ghost use Rattle.std.specs.Prelude.{◌≡◌, ◌++◌, IfOk, option_map};
ghost use Rattle.oc_http.specs.Parts.{joined};

use oc_base::{Memory, Text};
use std::alloc::Global;

/// The parts, one after the other. The memory for all of them is taken at once.
pub(crate) fn join(alloc: Global, parts: &[&[u8]]) -> Result<Vec<u8>, Memory>
    ensures { IfOk result (λ text. text.items ≡ joined parts.now) }
{
    let mut text = Vec::with_capacity(alloc, room_for(parts))?;
    for part in parts {
        text.extend_from_slice(part)?;
    }
    Ok(text)
}

/// The length of the parts together. Memory holds no more bytes than can be counted.
fn room_for(parts: &[&[u8]]) -> usize {
    let mut room = 0_usize;
    for part in parts {
        room = room.saturating_add(part.len());
    }
    room
}

/// Some bytes, where there are any, as a text of their own.
pub(crate) fn copy_some(alloc: Global, bytes: Option<&[u8]>) -> Result<Option<Text>, Memory>
    ensures { IfOk result (λ text. text ≡ option_map (λ b. b.now) bytes.entry) }
{
    match bytes {
        Some(bytes) => Ok(Some(copy(alloc, bytes)?)),
        None => Ok(None),
    }
}

/// The bytes as a text of their own.
pub(crate) fn copy(alloc: Global, bytes: &[u8]) -> Result<Text, Memory>
    ensures { IfOk result (λ text. text ≡ bytes.now) }
{
    let items = bytes.to_vec(alloc)?;
    Ok(Text::of(items))
}
