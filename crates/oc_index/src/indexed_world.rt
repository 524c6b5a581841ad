//! A world with an index of its messages by content.

ghost use Rattle.std.specs.Prelude.{◌≡◌, ◌↔◌, ◌≤◌, IsTrue, Some, IfOk, OnErr, OnOk, length};
ghost use Rattle.oc_index.specs.Index.{IsFirstFrom, IsIndex, IsNoneBefore};
ghost use Rattle.oc_merge.specs.Merging.{IsNumberOf};
ghost use Rattle.oc_model.specs.Lawful.{IsEvent, IsHeader, IsMessage};
ghost use Rattle.oc_model.specs.NextWorld.{next_world};
ghost use Rattle.oc_replay.specs.Stage.{HasTimeFor};
ghost use Rattle.oc_world.specs.Inside.{IsLeftBy};
ghost use Rattle.oc_model.specs.World.{ids, message_at, new_world};
ghost use Rattle.oc_wire.specs.Spelling.{spelling};

use crate::hash::hash_of;
use crate::numbers::Numbers;
use oc_base::{Bytes, Memory, NodeId};
use oc_merge::Nodes;
use oc_model::{Event, Header, Message};
use oc_wire::encode;
use oc_world::World;
use std::alloc::Global;

/// A world, and an index of its messages. Contracts see a world of the model.
#[derive(Drop)]
pub struct IndexedWorld {
    alloc: Global,
    world: World,
    numbers: Numbers,
    ghost indexed: { IsIndex world.world.net numbers },
}

impl IndexedWorld {
    /// The world of a header, where all nodes are down and nothing was sent.
    pub fn new(alloc: Global, header: &Header) -> Result<IndexedWorld, Memory>
        requires { IsHeader header.now }
        ensures { IfOk result (λ made. made.world.world ≡ new_world header.now) }
    {
        Ok(IndexedWorld {
            alloc,
            world: World::new(alloc, header)?,
            numbers: Numbers::new(alloc),
        })
    }

    /// Whether the message of this number is equal to this one, which has this spelling.
    #[tactic(auto, using(crate::proofs::Same::has_spelling, crate::proofs::Same::same_spelled))]
    fn is_same(&self, number: u64, message: &Message, spelled: &[u8]) -> Result<bool, Memory>
        requires message { IsMessage (length (ids self.now.world.world)) message.now }
        requires spelled { spelled.now ≡ spelling message.now }
        ensures { IfOk result (λ same. IsTrue same ↔ (message_at self.now.world.world.net number ≡ Some message.now)) }
    {
        // The clauses of this call say that there are few nodes, so lawful messages have spellings.
        let _nodes = self.world.count();
        match self.world.message(number)? {
            Some(found) => {
                let other = encode(self.alloc, &found)?;
                Ok(other.as_slice() == spelled)
            }
            None => Ok(false),
        }
    }

    /// The least number of a message equal to this one, which has this spelling, if none before
    /// `from` is.
    #[tactic(auto, using(crate::proofs::Same::none_before_next, crate::proofs::Same::found_first, crate::proofs::Same::found_none))]
    fn searched(&self, from: u64, message: &Message, spelled: &[u8]) -> Result<Option<u64>, Memory>
        requires message { IsMessage (length (ids self.now.world.world)) message.now }
        requires spelled { spelled.now ≡ spelling message.now }
        requires before { IsNoneBefore self.now.world.world.net message.now from }
        ensures { IfOk result (λ found. IsNumberOf self.now.world.world.net message.now found) }
    {
        for number in from..self.world.sent_count() + 1 {
            if self.is_same(number, message, spelled)? {
                return Ok(Some(number));
            }
        }
        Ok(None)
    }

    /// The number from which a message with this hash is searched.
    #[tactic(auto, using(crate::proofs::Indexed::from_none, crate::proofs::Indexed::from_some))]
    fn first_with(&self, hash: u64) -> u64
        ensures { IsFirstFrom self.now.world.world.net hash result }
    {
        // The messages that are indexed are at most those that were sent, and a clause of this call says that
        // those are few.
        let _sent = self.world.sent_count();
        match self.numbers.least(hash) {
            Some(number) => number,
            None => self.numbers.next(),
        }
    }
}

/// Indexes the messages of a world that were not indexed yet.
#[tactic(auto, using(crate::proofs::Same::has_spelling, crate::proofs::Indexed::with_next, crate::proofs::Indexed::with_none))]
fn index_all(alloc: Global, world: &World, numbers: &mut Numbers) -> Result<(), Memory>
    requires { IsIndex world.now.world.net numbers.old }
    ensures { IsIndex world.now.world.net numbers.new }
{
    // The clauses of this call say that there are few nodes, so lawful messages have spellings.
    let _nodes = world.count();
    let sent = world.sent_count();
    for number in numbers.next()..sent + 1 {
        let Some(message) = world.message(number)? else {
            return Ok(());
        };
        let spelled = encode(alloc, &message)?;
        numbers.put(hash_of(&spelled))?;
    }
    Ok(())
}

/// Performs an event, without its word. If memory runs out, `IsLeftBy` describes the world.
fn play(world: &mut World, event: &Event) -> Result<(), Memory>
    requires event { IsEvent (length (ids world.old.world)) event.now }
    requires time { HasTimeFor world.old.world event.now }
    ensures ok { OnOk result (world.new.world ≡ next_world world.old.world event.now) }
    ensures err { OnErr result (IsLeftBy event.now world.old.world world.new.world) }
{
    match world.event(event) {
        Ok(_) => Ok(()),
        Err(Memory) => Err(Memory),
    }
}

impl Nodes for IndexedWorld {
    ghost use Rattle.oc_index.specs.Digest.{digest};

    ghost world = { λ w. w.world.world };

    ghost digest = { digest };

    #[tactic(auto, using(crate::proofs::Played::played_time, crate::proofs::Played::index_behind, crate::proofs::Played::index_left))]
    fn event(&mut self, event: &Event) -> Result<(), Memory> {
        play(&mut self.world, event)?;
        index_all(self.alloc, &self.world, &mut self.numbers)
    }

    #[tactic(auto, using(crate::proofs::Same::has_spelling, crate::proofs::Same::none_of_hash))]
    fn number(&self, message: &Message) -> Result<Option<u64>, Memory> {
        // The clauses of this call say that there are few nodes, so lawful messages have spellings.
        let _nodes = self.world.count();
        let spelled = encode(self.alloc, message)?;
        let from = self.first_with(hash_of(&spelled));
        self.searched(from, message, &spelled)
    }

    fn sent(&self) -> u64 {
        self.world.sent_count()
    }

    #[tactic(auto, using(crate::proofs::Indexed::number_there))]
    fn receiver(&self, number: u64) -> Result<NodeId, Memory> {
        match self.world.message(number)? {
            Some(message) => Ok(message.to),
            None => unreachable!(),
        }
    }

    fn files(&self, node: NodeId) -> Result<Bytes, Memory> {
        Ok(Bytes::of(self.world.digest(node)?))
    }
}
