ghost use Rattle.std.specs.Prelude.{◌≡◌, ◌^◌, ◌<◌, ◌≤◌, ◌++◌, [], Some, length, IfOk};
ghost use Rattle.oc_base.specs.Names.{IsGroupName};
ghost use Rattle.oc_content.specs.Entries.{entry_of, heading as heading_of};
ghost use Rattle.oc_content.specs.Tracks.{room_of};
ghost use Rattle.oc_content.specs.ContentView.{adds};

use crate::heading::Heading;
use crate::track::Track;
use oc_base::{Lookup, MAX_PUBLISH_BYTES};
use oc_journal::{Frame, FrameFault};
use std::alloc::{AllocError, Global};
use std::marker::Model;

/// A prepared piece: bytes, and perhaps a seal, for a group. A contract sees the body of its frame, its
/// entry, the index of the group, and the memory that it brings for a new group.
#[derive(Drop)]
pub struct Piece {
    pub(crate) frame: Frame,
    pub(crate) heading: Heading,
    pub(crate) count: u64,
    pub(crate) place: Lookup,
    pub(crate) track: Track,
}

impl Model for Piece {
    ghost use Rattle.std.specs.Prelude.{◌≡◌, length};
    ghost use Rattle.oc_content.specs.ContentView.{PieceView};
    ghost use Rattle.oc_content.specs.Headings.{entry_at};
    ghost use Rattle.oc_content.specs.Tracks.{room_of};
    ghost use Rattle.oc_content.specs.Pieces.{IsPiece};

    ghost Value = { PieceView };

    ghost view = { λ p. record { body = p.frame; entry = entry_at p.heading p.frame; place = p.place; room = room_of p.track } };

    ghost invariant = { λ p. IsPiece p.frame p.heading p.count p.track };
}

impl Piece {
    /// The piece with this heading and these bytes, for the group at a place of the index.
    pub(crate) fn new(
        alloc: Global,
        heading: Heading,
        place: Lookup,
        track: Track,
        bytes: &[u8],
    ) -> Result<Piece, AllocError>
        requires name { IsGroupName heading.group }
        requires skip { heading.skip ≡ length (heading_of heading.seals heading.group heading.start) }
        requires start { heading.start < 2 ^ 64 }
        requires few { length bytes.now ≤ MAX_PUBLISH_BYTES }
        requires empty { track.spans.items ≡ [] }
        ensures body { IfOk result (λ piece. piece.body
            ≡ heading_of heading.seals heading.group heading.start ++ bytes.now) }
        ensures entry { IfOk result (λ piece. piece.entry
            ≡ record { group = heading.group; start = heading.start; bytes = bytes.now; seals = heading.seals }) }
        ensures place { IfOk result (λ piece. piece.place ≡ place) }
        ensures room { IfOk result (λ piece. piece.room ≡ room_of track) }
    {
        Ok(Piece {
            frame: framed(alloc, &heading, bytes)?,
            heading,
            count: bytes.len() as u64,
            place,
            track,
        })
    }

    /// The frame of the piece.
    pub(crate) fn frame(&self) -> &Frame
        ensures body { result.now ≡ self.now.body }
        ensures says { entry_of self.now.body ≡ Some self.now.entry }
    {
        &self.frame
    }

    /// Whether the piece adds anything: a new group, bytes, or a seal.
    pub fn adds(&self) -> bool
        ensures { result ≡ adds self.now }
    {
        matches!(self.place, Lookup::Free(_)) || 0 < self.count || self.heading.seals
    }
}

/// The frame with this heading and these bytes.
fn framed(alloc: Global, heading: &Heading, bytes: &[u8]) -> Result<Frame, AllocError>
    requires { length bytes.now ≤ MAX_PUBLISH_BYTES }
    ensures { IfOk result (λ frame. frame
        ≡ heading_of heading.now.seals heading.now.group heading.now.start ++ bytes.now) }
{
    let front = heading.front(alloc)?;
    match Frame::joined(alloc, &front, bytes) {
        Ok(frame) => Ok(frame),
        Err(FrameFault::Memory) => Err(AllocError),
        Err(FrameFault::TooLong) => unreachable!(),
    }
}
