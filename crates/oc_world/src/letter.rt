//! A stored message: its bytes, of which the last ones may be shared with other messages.

ghost use Rattle.std.specs.Prelude.{◌≡◌, ◌≤◌, ◌++◌, IfOk};
ghost use Rattle.oc_base.specs.declared.limits.TheConstants.{MAX_NODES};
ghost use Rattle.oc_world.specs.Letters.{IsPlaced, KeepsPlaces, whole};
ghost use Rattle.oc_world.specs.Net.{IsSpelled, message_in};

use crate::pools::{PoolPart, Pools};
use crate::texts::message_in;
use oc_base::{Bytes, GroupName, Memory};
use oc_model::{Body, Message};
use std::alloc::Global;

/// The bytes of a message. The bytes of a group in chunks are stored once for all letters; apart
/// from them the letter of a chunk takes as much memory as any other.
#[derive(Drop)]
pub(crate) enum Letter {
    /// All bytes.
    Alone(Bytes),
    /// Bytes of which the last part is shared.
    Shared(Box<Sharing>),
}

/// The bytes before the shared part, and the place of that part.
#[derive(Drop)]
pub(crate) struct Sharing {
    front: Bytes,
    place: PoolPart,
}

impl Letter {
    /// The letter of the bytes of a message with this body. Shared bytes go into the pools.
    pub(crate) fn of(
        alloc: Global,
        pools: &mut Pools,
        bytes: &[u8],
        body: &Body,
    ) -> Result<Letter, Memory>
        ensures keeps { KeepsPlaces pools.old pools.new }
        ensures placed { IfOk result (λ letter. IsPlaced pools.new letter) }
        ensures whole { IfOk result (λ letter. whole pools.new letter ≡ bytes.now) }
    {
        match body {
            Body::Chunk {
                group,
                start,
                bytes: piece,
                ..
            } => shared(alloc, pools, bytes, *group, *start, piece.items().len()),
            _ => Ok(Letter::Alone(copied(alloc, bytes)?)),
        }
    }

    /// A copy of the bytes.
    fn bytes(&self, alloc: Global, pools: &Pools) -> Result<Vec<u8>, Memory>
        requires { IsPlaced pools.now self.now }
        ensures { IfOk result (λ bytes. bytes.items ≡ whole pools.now self.now) }
    {
        match self {
            Letter::Alone(bytes) => Ok(bytes.items().to_vec(alloc)?),
            Letter::Shared(sharing) => joined(
                alloc,
                sharing.front.items(),
                pools.piece(sharing.place),
            ),
        }
    }

    /// The message between `nodes` nodes with these bytes.
    pub(crate) fn message(
        &self,
        alloc: Global,
        pools: &Pools,
        nodes: u32,
    ) -> Result<Message, Memory>
        requires few { nodes ≤ MAX_NODES }
        requires placed { IsPlaced pools.now self.now }
        requires spelled { IsSpelled nodes (whole pools.now self.now) }
        ensures { IfOk result (λ message. message ≡ message_in nodes (whole pools.now self.now)) }
    {
        match self {
            Letter::Alone(bytes) => message_in(alloc, bytes.items(), nodes),
            Letter::Shared(_) => {
                let bytes = self.bytes(alloc, pools)?;
                message_in(alloc, &bytes, nodes)
            }
        }
    }
}

/// The letter of bytes that end with `count` bytes of a group, from the offset `start` on.
fn shared(
    alloc: Global,
    pools: &mut Pools,
    bytes: &[u8],
    group: GroupName,
    start: u64,
    count: usize,
) -> Result<Letter, Memory>
    ensures keeps { KeepsPlaces pools.old pools.new }
    ensures placed { IfOk result (λ letter. IsPlaced pools.new letter) }
    ensures whole { IfOk result (λ letter. whole pools.new letter ≡ bytes.now) }
{
    if count > bytes.len() {
        return Ok(Letter::Alone(copied(alloc, bytes)?));
    }
    let (front, piece) = bytes.split_at(bytes.len() - count);
    match pools.place(alloc, group, start, piece)? {
        None => Ok(Letter::Alone(copied(alloc, bytes)?)),
        Some(place) => {
            let front = copied(alloc, front)?;
            Ok(Letter::Shared(Box::new(alloc, Sharing { front, place })?))
        }
    }
}

/// A copy of bytes.
fn copied(alloc: Global, bytes: &[u8]) -> Result<Bytes, Memory>
    ensures { IfOk result (λ copy. copy ≡ bytes.now) }
{
    Ok(Bytes::of(bytes.to_vec(alloc)?))
}

/// Two pieces, one after another.
fn joined(alloc: Global, front: &[u8], back: &[u8]) -> Result<Vec<u8>, Memory>
    ensures { IfOk result (λ bytes. bytes.items ≡ front.now ++ back.now) }
{
    let mut bytes = front.to_vec(alloc)?;
    bytes.extend_from_slice(back)?;
    Ok(bytes)
}
