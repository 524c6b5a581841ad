//! The index: the line of each group, and the frames with its bytes.

ghost use Rattle.std.specs.Prelude.{◌≡◌, ℕ, ◌+◌, ◌-◌, ◌^◌, ◌<◌, ◌≤◌, Bool, [], ◌∷◌, ◌++◌, List, length, vec_capacity, None, Some, true, MatchBool, IsTrue, IfOk, IfSome, MatchOption, OnOk, All, insert, get_or, ◌||◌};
ghost use Rattle.oc_base.specs.declared.group.Group.{Group};
ghost use Rattle.oc_base.specs.Shelves.{line_of, held_of, IsHeldAt, AreLinesAscending, LooksUpLine};
ghost use Rattle.oc_content.specs.Entries.{entry_of};
ghost use Rattle.oc_content.specs.ContentFile.{fits, taken, with_entry};
ghost use Rattle.oc_base.specs.declared.limits.TheConstants.{MAX_GROUP_BYTES};
ghost use Rattle.oc_content.specs.Tracks.{room_of};
ghost use Rattle.oc_content.specs.Indexes.{IsIndexOf, IsSized, IsWithin, HasGroupRoom, HasTrackRoom, paths, rooms, line_with, lines_with, span_of, paths_with, spans_for, rooms_with, memory_of, changed, KeepsTracks, OnlyReserves, helds, IsTracked};
ghost use Rattle.oc_content.specs.Founds.{IsRest, IsSpot};

use crate::entry_lines::grow_at;
use crate::heading::Heading;
use crate::piece::Piece;
use crate::spot::Spot;
use crate::track::{Span, Track, find_byte};
use oc_base::{GroupName, Lookup, MAX_GROUP_BYTES, MAX_GROUPS, Shelf, look_up};
use std::alloc::{AllocError, Global};

/// The lines of the groups, ascending by name, and their tracks in the same order.
#[derive(Drop)]
pub struct Index {
    pub shelves: Vec<Shelf>,
    pub tracks: Vec<Track>,
}

impl Index {
    /// An empty index, without memory.
    pub fn new(alloc: Global) -> Index
        ensures lines { result.shelves.items ≡ [] }
        ensures tracks { result.tracks.items ≡ [] }
    {
        Index {
            shelves: Vec::new(alloc),
            tracks: Vec::new(alloc),
        }
    }

    /// Adds the frame of the number `frame`, and answers whether it is allowed after those before it.
    pub fn take(&mut self, alloc: Global, frame: u64, body: &[u8]) -> Result<bool, AllocError>
        requires { IsSized self.old }
        ensures { IfOk result (λ took. (bodies : List (List ℕ)) (groups : List Group) (honest : Bool)
            → IsIndexOf bodies groups self.old honest → (IsTrue honest → frame ≡ length bodies)
            → MatchBool took
            ((more : List Group) × IsIndexOf (bodies ++ body.now ∷ []) more self.new honest)
            (taken groups (entry_of body.now) ≡ None)) }
    {
        let Some(heading) = Heading::read(body) else {
            return Ok(false);
        };
        let count = (body.len() - heading.skip as usize) as u64;
        let place = look_up(&self.shelves, &heading.group);
        if !self.fits(place, &heading, count) {
            return Ok(false);
        }
        let track = self.reserve(alloc, place)?;
        self.add(place, track, &heading, count, frame);
        Ok(true)
    }

    /// Whether an entry with `count` bytes is allowed after the present content.
    fn fits(&self, place: Lookup, heading: &Heading, count: u64) -> bool
        requires { LooksUpLine self.now.shelves.items heading.now.group place }
        ensures { result ≡ fits (line_of heading.now.group self.now.shelves.items)
            (length self.now.shelves.items) heading.now.start count heading.now.seals }
    {
        match place {
            Lookup::Found(at) => fits_held(&self.shelves[at], heading, count),
            Lookup::Free(_) => fits_new(self.shelves.len(), heading, count),
        }
    }

    /// Reserves memory for one more span of a group: in the group's own track, or in the track that is handed
    /// out. For a new group it also reserves memory for the line and the track.
    pub fn reserve(&mut self, alloc: Global, place: Lookup) -> Result<Track, AllocError>
        requires within { IsWithin place (length self.old.tracks.items) }
        requires rows { length self.old.tracks.items ≡ length self.old.shelves.items }
        ensures room { IfOk result (λ track. HasTrackRoom (rooms self.new.tracks.items) (room_of track) place) }
        ensures groups { OnOk result (HasGroupRoom (length self.new.shelves.items) (memory_of self.new) place) }
        ensures empty { IfOk result (λ track. track.spans.items ≡ []) }
        ensures keeps { OnlyReserves self.old self.new }
    {
        match place {
            Lookup::Found(at) => {
                reserve_at(&mut self.tracks, at)?;
                Ok(Track::new(alloc))
            }
            Lookup::Free(_) => {
                self.shelves.reserve(1)?;
                self.tracks.reserve(1)?;
                Track::with_room(alloc)
            }
        }
    }

    /// Finds a byte of the group at an index: the spans from the one with the byte on, and the offset of the
    /// byte in the first of them.
    pub fn find(&self, at: usize, start: u64) -> Option<(&[Span], u64)>
        requires within { at < length self.now.shelves.items }
        requires rows { length self.now.tracks.items ≡ length self.now.shelves.items }
        requires short { All (λ s. s.held ≤ MAX_GROUP_BYTES) self.now.shelves.items }
        ensures held { IfSome result (λ _. start < get_or (helds self.now.shelves.items) at 0) }
        ensures some { IfSome result (λ rest. 0 < length rest.0.now) }
        ensures short { IfSome result (λ rest. rest.1 < MAX_GROUP_BYTES) }
        ensures found { (bodies : List (List ℕ)) (k : Group)
            → IsTracked bodies k (get_or (paths self.now.tracks.items) at [])
            → length k.bytes ≡ get_or (helds self.now.shelves.items) at 0
            → MatchOption result (length k.bytes ≤ start) (λ rest. IsRest bodies k start rest.0.now rest.1) }
    {
        if self.shelves[at].held <= start {
            return None;
        }
        let spans = &self.tracks[at].spans;
        let found = find_byte(spans, start)?;
        Some((&spans[found.span..], found.skip))
    }

    /// The number of bytes of a group.
    pub fn held(&self, group: &GroupName) -> Option<u64>
        requires { AreLinesAscending self.now.shelves.items }
        ensures { result ≡ held_of group.now self.now.shelves.items }
    {
        match look_up(&self.shelves, group) {
            Lookup::Found(at) => Some(self.shelves[at].held),
            Lookup::Free(_) => None,
        }
    }

    /// The frame with a byte of a group, and the offset of the byte in the frame's bytes.
    pub fn spot(&self, group: &GroupName, start: u64) -> Option<Spot>
        requires { IsSized self.now }
        ensures held { IfSome result (λ _. IsHeldAt group.now self.now.shelves.items start) }
        ensures spot { (bodies : List (List ℕ)) (groups : List Group) → IsIndexOf bodies groups self.now true
            → MatchOption result (¬ IsHeldAt group.now self.now.shelves.items start)
            (λ spot. IsSpot bodies group.now start spot) }
    {
        let Lookup::Found(at) = look_up(&self.shelves, group) else {
            return None;
        };
        let (spans, skip) = self.find(at, start)?;
        Some(Spot {
            frame: spans[0].frame,
            skip,
        })
    }

    /// Adds a piece, which is in the frame of this number; answers the number of bytes of its group
    /// then.
    pub fn put(&mut self, piece: Piece, frame: u64) -> u64
        requires sized { IsSized self.old }
        requires place { LooksUpLine self.old.shelves.items piece.entry.group piece.place }
        requires fits { fits (line_of piece.entry.group self.old.shelves.items) (length self.old.shelves.items)
            piece.entry.start (length piece.entry.bytes) piece.entry.seals ≡ true }
        requires room { HasTrackRoom (rooms self.old.tracks.items) piece.room piece.place }
        requires groups { HasGroupRoom (length self.old.shelves.items) (memory_of self.old) piece.place }
        ensures held { result ≡ piece.entry.start + length piece.entry.bytes }
        ensures rooms { rooms self.new.tracks.items
            ≡ rooms_with piece.place piece.room (length piece.entry.bytes) (rooms self.old.tracks.items) }
        ensures memory { memory_of self.new ≡ memory_of self.old }
        ensures added { (bodies : List (List ℕ)) (groups : List Group) (honest : Bool)
            → IsIndexOf bodies groups self.old honest → (IsTrue honest → frame ≡ length bodies)
            → IsIndexOf (bodies ++ piece.body ∷ []) (with_entry piece.entry groups) self.new honest }
    {
        let Piece {
            frame: _,
            heading,
            count,
            place,
            track,
        } = piece;
        self.add(place, track, &heading, count, frame);
        heading.start + count
    }

    /// Adds an entry with `count` bytes, which is in the frame of this number.
    pub fn add(&mut self, place: Lookup, track: Track, heading: &Heading, count: u64, frame: u64)
        requires sized { IsSized self.old }
        requires within { IsWithin place (length self.old.shelves.items) }
        requires room { HasTrackRoom (rooms self.old.tracks.items) (room_of track) place }
        requires groups { HasGroupRoom (length self.old.shelves.items) (memory_of self.old) place }
        requires empty { track.spans.items ≡ [] }
        requires few { count ≤ MAX_GROUP_BYTES }
        ensures lines { self.new.shelves.items ≡ lines_with place heading.now count self.old.shelves.items }
        ensures paths { paths self.new.tracks.items
            ≡ paths_with place (span_of heading.now count frame) (paths self.old.tracks.items) }
        ensures rooms { rooms self.new.tracks.items
            ≡ rooms_with place (room_of track) count (rooms self.old.tracks.items) }
        ensures memory { memory_of self.new ≡ memory_of self.old }
    {
        match place {
            Lookup::Found(at) => {
                grow_at(&mut self.shelves, at, heading, count);
                add_span_at(&mut self.tracks, at, heading, count, frame);
            }
            Lookup::Free(at) => self.insert(at, track, heading, count, frame),
        }
    }

    /// Puts a new group at its index.
    fn insert(&mut self, at: usize, mut track: Track, heading: &Heading, count: u64, frame: u64)
        requires sized { IsSized self.old }
        requires within { at ≤ length self.old.shelves.items }
        requires groups { length self.old.shelves.items < memory_of self.old }
        requires room { 0 < room_of track }
        requires empty { track.spans.items ≡ [] }
        ensures lines { self.new.shelves.items ≡ insert self.old.shelves.items at
            (record { group = heading.now.group; held = count; sealed = heading.now.seals }) }
        ensures paths { paths self.new.tracks.items
            ≡ insert (paths self.old.tracks.items) at (span_of heading.now count frame) }
        ensures rooms { rooms self.new.tracks.items
            ≡ insert (rooms self.old.tracks.items) at (room_of track - spans_for count) }
        ensures memory { memory_of self.new ≡ memory_of self.old }
    {
        add_span(&mut track, heading, count, frame);
        self.shelves
            .insert(
                at,
                Shelf {
                    group: heading.group,
                    held: count,
                    sealed: heading.seals,
                },
            )
            .unwrap();
        self.tracks.insert(at, track).unwrap();
    }
}

/// Whether an entry with `count` bytes is allowed in a group that is there.
fn fits_held(shelf: &Shelf, heading: &Heading, count: u64) -> bool
    ensures { (groups : ℕ)
        → result ≡ fits (Some shelf.now) groups heading.now.start count heading.now.seals }
{
    heading.start == shelf.held
        && !shelf.sealed
        && count <= MAX_GROUP_BYTES
        && shelf.held <= MAX_GROUP_BYTES - count
        && (heading.seals || 0 < count)
}

/// Whether an entry with `count` bytes may begin a group, beside this number of others.
fn fits_new(groups: usize, heading: &Heading, count: u64) -> bool
    ensures { result ≡ fits None groups heading.now.start count heading.now.seals }
{
    heading.start == 0 && groups < MAX_GROUPS && count <= MAX_GROUP_BYTES
}

/// Reserves memory for one more span of the track at an index.
fn reserve_at(tracks: &mut Vec<Track>, at: usize) -> Result<(), AllocError>
    requires { at < length tracks.old.items }
    ensures room { OnOk result (0 < get_or (rooms tracks.new.items) at 0) }
    ensures tracks { KeepsTracks tracks.old.items tracks.new.items }
    ensures memory { vec_capacity tracks.old ≤ vec_capacity tracks.new }
{
    tracks[at].reserve()
}

/// Adds the span of an entry, unless it has no bytes, to the track of the group at an index.
fn add_span_at(tracks: &mut Vec<Track>, at: usize, heading: &Heading, count: u64, frame: u64)
    requires within { at < length tracks.old.items }
    requires room { 0 < get_or (rooms tracks.old.items) at 0 }
    ensures paths { paths tracks.new.items
        ≡ changed (λ path. path ++ span_of heading.now count frame) at (paths tracks.old.items) }
    ensures rooms { rooms tracks.new.items ≡ changed (λ room. room - spans_for count) at (rooms tracks.old.items) }
    ensures memory { vec_capacity tracks.new ≡ vec_capacity tracks.old }
{
    add_span(&mut tracks[at], heading, count, frame);
}

/// Adds the span of an entry, unless it has no bytes, to a track that has room for it.
fn add_span(track: &mut Track, heading: &Heading, count: u64, frame: u64)
    requires { 0 < room_of track.old }
    ensures spans { track.new.spans.items ≡ track.old.spans.items ++ span_of heading.now count frame }
    ensures room { room_of track.new ≡ room_of track.old - spans_for count }
{
    if 0 < count {
        track.push(Span {
            frame,
            start: heading.start,
            skip: heading.skip,
        });
    }
}
