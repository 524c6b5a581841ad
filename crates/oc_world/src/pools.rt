//! Bytes shared by letters.

ghost use Rattle.std.specs.Prelude.{◌≡◌, ◌<◌, [], ◌++◌, length, slice_set, get_or, vec_len, IfOk, IfSome, OnOk, OnErr};
ghost use Rattle.oc_world.specs.Letters.{IsKnown, IsWithin, KeepsPlaces, contents, piece};

use oc_base::{Bytes, GroupName, Memory};
use std::alloc::Global;
use std::marker::Model;

/// The place of shared bytes: `count` bytes of this pool, from the offset `start` on.
#[derive(Clone, Copy)]
pub(crate) struct PoolPart {
    pub pool: usize,
    pub start: usize,
    pub count: usize,
}

/// The content of a group that chunks brought, from its first byte on.
#[derive(Drop)]
pub(crate) struct Pool {
    group: GroupName,
    bytes: Bytes,
}

/// The content of each group that chunks brought, stored once for all letters. Contracts see the
/// bytes of each group.
#[derive(Drop)]
pub(crate) struct Pools {
    pools: Vec<Pool>,
}

impl Model for Pools {
    ghost use Rattle.std.specs.Prelude.{List, ℕ};
    ghost use Rattle.oc_world.specs.Letters.{contents};

    ghost Value = { List (List ℕ) };

    ghost view = { λ p. contents p.pools.items };
}

impl Pools {
    /// Begins without bytes. Takes no memory.
    pub(crate) fn new(alloc: Global) -> Pools
        ensures { result ≡ [] }
    {
        Pools {
            pools: Vec::new(alloc),
        }
    }

    /// The bytes at a place.
    pub(crate) fn piece(&self, place: PoolPart) -> &[u8]
        requires { IsWithin self.now place }
        ensures { result.now ≡ piece self.now place }
    {
        piece_in(&self.pools, place)
    }

    /// The place of these bytes of a group, from its byte `start` on: where they are stored
    /// already, or appended after the stored ones. There is none if the bytes differ from the
    /// stored ones, or bytes before them are missing.
    pub(crate) fn place(
        &mut self,
        alloc: Global,
        group: GroupName,
        start: u64,
        bytes: &[u8],
    ) -> Result<Option<PoolPart>, Memory>
        ensures keeps { KeepsPlaces self.old self.new }
        ensures place { IfOk result (λ found. IfSome found (λ place. IsWithin self.new place × (piece self.new place ≡ bytes.now))) }
    {
        place_in(&mut self.pools, alloc, group, start, bytes)
    }
}

/// The bytes at a place.
fn piece_in(pools: &[Pool], place: PoolPart) -> &[u8]
    requires { IsWithin (contents pools.now) place }
    ensures { result.now ≡ piece (contents pools.now) place }
{
    let held = pools[place.pool].bytes.items();
    &held[place.start..place.start + place.count]
}

/// The place of bytes of a group, which are appended to the stored ones if they go on from there.
fn place_in(
    pools: &mut Vec<Pool>,
    alloc: Global,
    group: GroupName,
    start: u64,
    bytes: &[u8],
) -> Result<Option<PoolPart>, Memory>
    ensures keeps { KeepsPlaces (contents pools.old.items) (contents pools.new.items) }
    ensures place { IfOk result (λ found. IfSome found (λ place. IsWithin (contents pools.new.items) place × (piece (contents pools.new.items) place ≡ bytes.now))) }
{
    let pool = pool_of(pools, alloc, group)?;
    let start = start as usize;
    match known_of(pools[pool].bytes.items(), start, bytes) {
        None => Ok(None),
        Some(known) => {
            add_bytes(pools, pool, &bytes[known..])?;
            Ok(Some(PoolPart {
                pool,
                start,
                count: bytes.len(),
            }))
        }
    }
}

/// The index of the pool of a group, and of a new one if there was none.
fn pool_of(pools: &mut Vec<Pool>, alloc: Global, group: GroupName) -> Result<usize, Memory>
    ensures keeps { KeepsPlaces (contents pools.old.items) (contents pools.new.items) }
    ensures there { IfOk result (λ at. at < vec_len pools.new) }
{
    match found(pools, &group) {
        Some(at) => Ok(at),
        None => {
            let at = pools.len();
            let bytes = Bytes::of(Vec::new(alloc));
            pools.push(Pool { group, bytes })?;
            Ok(at)
        }
    }
}

/// The index of the pool of a group.
fn found(pools: &[Pool], group: &GroupName) -> Option<usize>
    ensures { IfSome result (λ at. at < length pools.now) }
{
    pools.iter().position(|pool| pool.group == *group)
}

/// Appends bytes to a pool.
fn add_bytes(pools: &mut [Pool], at: usize, more: &[u8]) -> Result<(), Memory>
    requires { at < length pools.old }
    ensures ok { OnOk result (contents pools.new ≡ slice_set (contents pools.old) at (get_or (contents pools.old) at [] ++ more.now)) }
    ensures err { OnErr result (contents pools.new ≡ contents pools.old) }
{
    let pool = &mut pools[at];
    pool.bytes.append(more)?;
    Ok(())
}

/// The number of these bytes that are stored from an offset on, if none of them differs and the
/// rest goes on from there.
fn known_of(held: &[u8], start: usize, bytes: &[u8]) -> Option<usize>
    ensures { IfSome result (IsKnown held.now start bytes.now) }
{
    if start > held.len() {
        return None;
    }
    let behind = &held[start..];
    if behind.starts_with(bytes) {
        Some(bytes.len())
    } else if bytes.starts_with(behind) {
        Some(behind.len())
    } else {
        None
    }
}
