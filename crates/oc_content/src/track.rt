//! The frames with the bytes of one group.

ghost use Rattle.std.specs.Prelude.{◌≡◌, ℕ, ◌+◌, ◌-◌, ◌<◌, ◌≤◌, [], ◌∷◌, ◌++◌, List, length, OnOk, IfOk, IfSome};
ghost use Rattle.oc_base.specs.declared.group.Group.{Group};
ghost use Rattle.oc_base.specs.declared.limits.TheConstants.{MAX_GROUP_BYTES};
ghost use Rattle.oc_content.specs.Indexes.{IsTracked};
ghost use Rattle.oc_content.specs.Founds.{IsFoundAt};
ghost use Rattle.oc_content.specs.Tracks.{room_of, IsLastBefore};

use std::alloc::{AllocError, Global};

/// The bytes of a group in one frame.
#[derive(Clone, Copy)]
pub struct Span {
    /// The number of the frame.
    pub frame: u64,
    /// The offset of the first byte in the group.
    pub start: u64,
    /// The offset of the first byte in the body of the frame.
    pub skip: u16,
}

/// The spans of a group, in order.
#[derive(Drop)]
pub struct Track {
    pub spans: Vec<Span>,
}

impl Track {
    /// A track without spans and memory.
    pub fn new(alloc: Global) -> Track
        ensures { result.spans.items ≡ [] }
    {
        Track {
            spans: Vec::new(alloc),
        }
    }

    /// A track without spans, and with memory for one.
    pub fn with_room(alloc: Global) -> Result<Track, AllocError>
        ensures spans { IfOk result (λ track. track.spans.items ≡ []) }
        ensures room { IfOk result (λ track. 0 < room_of track) }
    {
        let mut track = Track::new(alloc);
        track.reserve()?;
        Ok(track)
    }

    /// Reserves memory for one more span.
    pub fn reserve(&mut self) -> Result<(), AllocError>
        ensures spans { self.new.spans.items ≡ self.old.spans.items }
        ensures room { OnOk result (0 < room_of self.new) }
        ensures no_less { room_of self.old ≤ room_of self.new }
    {
        self.spans.reserve(1)
    }

    /// Adds a span, for which `reserve` made room.
    pub fn push(&mut self, span: Span)
        requires { 0 < room_of self.old }
        ensures spans { self.new.spans.items ≡ self.old.spans.items ++ span ∷ [] }
        ensures room { room_of self.new ≡ room_of self.old - 1 }
    {
        self.spans.push_reserved(span);
    }
}

/// The place of a byte of a group in its spans.
#[derive(Clone, Copy)]
pub struct Found {
    /// The index of its span.
    pub span: usize,
    /// The offset of the byte in the span.
    pub skip: u64,
}

/// Finds a byte of a group by binary search.
pub fn find_byte(spans: &[Span], start: u64) -> Option<Found>
    requires { start < MAX_GROUP_BYTES }
    ensures within { IfSome result (λ found. found.span < length spans.now) }
    ensures short { IfSome result (λ found. found.skip < MAX_GROUP_BYTES) }
    ensures found { (bodies : List (List ℕ)) (k : Group) → IsTracked bodies k spans.now
        → start < length k.bytes → IsFoundAt bodies k spans.now start result }
{
    let span = last_before(spans, start)?;
    let skip = start.checked_sub(spans[span].start)?;
    Some(Found { span, skip })
}

/// The index of the last span that begins at this byte or before it.
fn last_before(spans: &[Span], start: u64) -> Option<usize>
    ensures { IsLastBefore spans.now start result }
{
    spans
        .partition_point(|span| span.start <= start)
        .checked_sub(1)
}
