ghost use Rattle.std.specs.Prelude.{◌≡◌, ◌↔◌, ℕ, ◌^◌, ◌<◌, ◌≤◌, List, [], length, option_map, if◌then◌else◌, IsSome, IsTrue, IfOk, IfSome, OnOk, OnErr};
ghost use Rattle.oc_base.specs.Groups.{shelf};
ghost use Rattle.oc_base.specs.Lawful.{IsNode};
ghost use Rattle.std.specs.List.{range_with_len};
ghost use Rattle.oc_base.specs.declared.limits.TheConstants.{MAX_NODES};
ghost use Rattle.oc_calm.specs.Cluster.{HasChain, IsStepOf, IsUpNode, is_ack};
ghost use Rattle.oc_content.specs.ContentFile.{groups_in};
ghost use Rattle.oc_journal.specs.JournalFile.{frames_of};
ghost use Rattle.oc_keep.specs.Files.{Survives, disks};
ghost use Rattle.oc_keep.specs.KeptView.{header_of};
ghost use Rattle.oc_laws_step.specs.LawfulNode.{IsLawfulControl};
ghost use Rattle.oc_model.specs.Lawful.{IsEvent, IsHeader, IsInput, IsMessage};
ghost use Rattle.oc_model.specs.NextWorld.{crashed, next_world, started, stopped_at, word_of, word_of_act, word_of_stop};
ghost use Rattle.oc_model.specs.Ready.{IsSettled};
ghost use Rattle.oc_model.specs.Runs.{last_body};
ghost use Rattle.oc_model.specs.World.{acted, after_act, arrival as arrival_in, delivery, ids, is_up, message_at, new_world, node as node_in, process};
ghost use Rattle.oc_model.specs.declared.event.Event.TheVariants.{Crash, Do, Stop, Up};
ghost use Rattle.oc_io.specs.MemDiskView.{view_of};
ghost use Rattle.oc_model.specs.Status.{status_in};
ghost use Rattle.oc_replay.specs.Digests.{digest_text};
ghost use Rattle.oc_replay.specs.Stage.{HasTimeFor, IsSaid};
ghost use Rattle.oc_world.specs.Inside.{IsLeftBy};
ghost use Rattle.oc_world.specs.Net.{IsTextOf};
ghost use Rattle.oc_world.specs.World.{RenewsAt, RenewsBy, processes_of};

use crate::acting::act;
use crate::arrivals::{delivery, message_place};
use crate::net::Net;
use crate::process::Process;
use crate::processes::new_processes;
use oc_base::{Memory, NodeId, Shelf};
use oc_calm::{heal, is_settled, settle};
use oc_io::MemDisk;
use oc_keep::Node;
use oc_laws_world::tests_decide;
use oc_model::{Act, Answer, Event, Header, Input, Message, NodeStatus, Word};
use oc_replay::Said;
use std::alloc::Global;
use std::marker::Model;

/// All nodes of a network on their files, and every message between them.
///
/// Contracts see a world of the model, in which a node that is down is the node that its files
/// recover, and the source is the content of node 1; and the nodes on their files while they are
/// up. Every crash leaves the durable part of each node.
#[derive(Drop)]
pub struct World {
    pub(crate) alloc: Global,
    chain: u32,
    /// The nodes, in the order of their numbers.
    processes: Vec<Process>,
    net: Net,
}

impl Model for World {
    ghost use Rattle.oc_world.specs.World.{IsNetwork, WorldView, processes_of, seen_as};

    ghost Value = { WorldView };

    ghost view = { λ w. seen_as w.processes.items w.net.messages };

    ghost invariant = { λ w. IsNetwork w.chain (processes_of w.processes.items) w.net.nodes };
}

impl World {
    /// A world without nodes and messages. Takes no memory.
    pub fn empty(alloc: Global) -> World
        ensures { result ≡ record { world = record { processes = []; net = []; source = [] }; kept = [] } }
    {
        World {
            alloc,
            chain: 0,
            processes: Vec::new(alloc),
            net: Net::new(alloc, 0),
        }
    }

    /// The world of a header, where all nodes are down on empty files, and nothing was sent. There are 1
    /// to 1,024 nodes, a chain of 1 to 16 members and at most all nodes, chunks of 1 to 524,288 bytes, and an area for
    /// each node.
    pub fn new(alloc: Global, header: &Header) -> Result<World, Memory>
        requires { IsHeader header.now }
        ensures { IfOk result (λ world. world.world ≡ new_world header.now) }
    {
        Ok(World {
            alloc,
            chain: header.sizes.chain,
            processes: new_processes(alloc, header)?,
            net: Net::new(alloc, header.sizes.nodes),
        })
    }

    /// Performs an event within its ranges, and gives its word and the messages it sent. Settle and
    /// heal are given only if no clock of a node that is up is past the second 2^41 - 60.
    ///
    /// The error is `Memory` if memory ran out, or if more than 2^63 - 2 messages would have been
    /// sent. Then the world is unchanged; for settle and heal it is the world after some of their
    /// first acts. The control files of nodes may have been turned over, which changes no node.
    pub fn event(&mut self, event: &Event) -> Result<Said, Memory>
        requires event { IsEvent (length (ids self.old.world)) event.now }
        requires time { HasTimeFor self.old.world event.now }
        ensures world { OnOk result (self.new.world ≡ next_world self.old.world event.now) }
        ensures said { IfOk result (λ said. IsSaid (word_of self.old.world event.now) self.old.world self.new.world said) }

        // An act at a node turns its control files over first, if they are ripe.
        ensures renews { OnOk result (RenewsBy event.now self.old self.new) }
        ensures err { OnErr result (IsLeftBy event.now self.old.world self.new.world) }
    {
        let sent = self.net.len();
        let word = self.happen(event)?;
        Ok(Said {
            word,
            first: sent as u64 + 1,
            count: (self.net.len() - sent) as u64,
        })
    }

    /// Performs an event, and gives its word.
    fn happen(&mut self, event: &Event) -> Result<Word, Memory>
        requires event { IsEvent (length (ids self.old.world)) event.now }
        requires time { HasTimeFor self.old.world event.now }
        ensures world { OnOk result (self.new.world ≡ next_world self.old.world event.now) }
        ensures word { IfOk result (λ word. word ≡ word_of self.old.world event.now) }
        ensures renews { OnOk result (RenewsBy event.now self.old self.new) }
        ensures err { OnErr result (IsLeftBy event.now self.old.world self.new.world) }
    {
        match event {
            Event::Up(node) => self.start(*node),
            Event::Crash(node) => Ok(self.crash(*node)),
            Event::Stop { calls, image, act } => self.stop(act, *calls, *image),
            Event::Do(act) => self.take(act),
            Event::Held(_) | Event::Show(_) => Ok(Word::Node(Answer::Ok)),
            Event::Settle => settle(self.alloc, self),
            Event::Heal => heal(self.alloc, self),
        }
    }

    /// Starts a node from its files.
    fn start(&mut self, node: NodeId) -> Result<Word, Memory>
        requires { IsNode (length (ids self.old.world)) node }
        ensures world { OnOk result (self.new.world ≡ started self.old.world (process self.old.world node)) }
        ensures word { IfOk result (λ word. word ≡ word_of self.old.world (Up node)) }
        ensures err { OnErr result (self.new.world ≡ self.old.world) }
    {
        let at = node.index();
        if self.processes[at].is_up() {
            return Ok(Word::Up);
        }
        let process = &mut self.processes[at];
        process.start()?;
        Ok(Word::Node(Answer::Ok))
    }

    /// Stops a node between two inputs.
    fn crash(&mut self, node: NodeId) -> Word
        requires { IsNode (length (ids self.old.world)) node }
        ensures world { self.new.world ≡ crashed self.old.world (process self.old.world node) }
        ensures word { result ≡ word_of self.old.world (Crash node) }
    {
        let at = node.index();
        if !self.processes[at].is_up() {
            return Word::Down;
        }
        let process = &mut self.processes[at];
        process.crash();
        Word::Node(Answer::Ok)
    }

    /// Performs an act, and gives the word of its node.
    pub(crate) fn take(&mut self, act: &Act) -> Result<Word, Memory>
        requires { IsStepOf self.old.world act.now }
        ensures world { OnOk result (self.new.world ≡ after_act self.old.world act.now) }
        ensures word { IfOk result (λ word. word ≡ word_of_act self.old.world (arrival_in self.old.world act.now)) }
        ensures renews { OnOk result (RenewsAt (arrival_in self.old.world act.now) self.old self.new) }
        ensures err { OnErr result (self.new.world ≡ self.old.world) }
    {
        match act {
            // A message is delivered by its number alone.
            Act::At {
                input: Input::Delivered(_),
                ..
            } => Ok(Word::NoMessage),
            Act::At { node, input } => self.act_at(*node, input),
            Act::Deliver { number } => self.deliver(*number),
        }
    }

    /// Delivers the message of this number to its receiver.
    fn deliver(&mut self, number: u64) -> Result<Word, Memory>
        ensures world { OnOk result (self.new.world ≡ acted self.old.world (delivery (message_at self.old.world.net number))) }
        ensures word { IfOk result (λ word. word ≡ word_of_act self.old.world (delivery (message_at self.old.world.net number))) }
        ensures renews { OnOk result (RenewsAt (delivery (message_at self.old.world.net number)) self.old self.new) }
        ensures err { OnErr result (self.new.world ≡ self.old.world) }
    {
        match delivery(&self.net, number)? {
            None => Ok(Word::NoMessage),
            Some((node, input)) => self.act_at(node, &input),
        }
    }

    /// Performs an act.
    pub(crate) fn play(&mut self, act: &Act) -> Result<(), Memory>
        requires { IsStepOf self.old.world act.now }
        ensures world { OnOk result (self.new.world ≡ after_act self.old.world act.now) }
        ensures renews { OnOk result (RenewsAt (arrival_in self.old.world act.now) self.old self.new) }
        ensures err { OnErr result (self.new.world ≡ self.old.world) }
    {
        match self.take(act) {
            Ok(_) => Ok(()),
            Err(Memory) => Err(Memory),
        }
    }

    /// Gives an input to a node.
    fn act_at(&mut self, node: NodeId, input: &Input) -> Result<Word, Memory>
        requires node { IsNode (length (ids self.old.world)) node }
        requires input { IsInput (length (ids self.old.world)) node input.now }
        ensures world { OnOk result (self.new.world ≡ acted self.old.world (Some (record { at = node; input = input.now }))) }
        ensures word { IfOk result (λ word. word ≡ word_of_act self.old.world (Some (record { at = node; input = input.now }))) }
        ensures renews { OnOk result (RenewsAt (Some (record { at = node; input = input.now })) self.old self.new) }
        ensures err { OnErr result (self.new.world ≡ self.old.world) }
    {
        let at = node.index();
        if !self.processes[at].is_up() {
            return Ok(Word::Down);
        }
        let process = &mut self.processes[at];
        let answer = act(process, &mut self.net, input)?;
        Ok(Word::Node(answer))
    }

    /// Performs an act in which the node stops once `calls` calls on its disk have worked.
    fn stop(&mut self, act: &Act, calls: u8, image: u8) -> Result<Word, Memory>
        requires act { IsStepOf self.old.world act.now }
        requires calls { calls ≤ 4 }
        ensures world { OnOk result (self.new.world ≡ stopped_at self.old.world calls image (arrival_in self.old.world act.now)) }
        ensures word { IfOk result (λ word. word ≡ word_of_stop self.old.world calls image (arrival_in self.old.world act.now)) }
        ensures err { OnErr result (self.new.world ≡ self.old.world) }
    {
        match act {
            // A message is delivered by its number alone.
            Act::At {
                input: Input::Delivered(_),
                ..
            } => Ok(Word::NoMessage),
            Act::At { node, input } => self.stop_at(*node, input, calls, image),
            Act::Deliver { number } => match delivery(&self.net, *number)? {
                None => Ok(Word::NoMessage),
                Some((node, input)) => self.stop_at(node, &input, calls, image),
            },
        }
    }

    /// Gives an input to a node, which stops during it.
    fn stop_at(&mut self, node: NodeId, input: &Input, calls: u8, image: u8) -> Result<Word, Memory>
        requires node { IsNode (length (ids self.old.world)) node }
        requires input { IsInput (length (ids self.old.world)) node input.now }
        requires calls { calls ≤ 4 }
        ensures world { OnOk result (self.new.world ≡ stopped_at self.old.world calls image (Some (record { at = node; input = input.now }))) }
        ensures word { IfOk result (λ word. word ≡ word_of_stop self.old.world calls image (Some (record { at = node; input = input.now }))) }
        ensures err { OnErr result (self.new.world ≡ self.old.world) }
    {
        let at = node.index();
        if !self.processes[at].is_up() {
            return Ok(Word::Down);
        }
        let process = &mut self.processes[at];
        let kept_new = process.stop(input, calls, image)?;
        Ok(stop_word(kept_new))
    }

    /// The message of this number, counted from 1 over all that were sent; none if there is none.
    /// It is read from its bytes.
    pub fn message(&self, number: u64) -> Result<Option<Message>, Memory>
        ensures found { IfOk result (λ found. found ≡ message_at self.now.world.net number) }
        ensures lawful { IfOk result (λ found. IfSome found (IsMessage (length (ids self.now.world)))) }
    {
        match message_place(number, self.net.len()) {
            None => Ok(None),
            Some(at) => Ok(Some(self.net.message(at)?)),
        }
    }

    /// The text of the message of this number, the request that brings it to its receiver; none if
    /// there is no such message.
    pub fn text(&self, number: u64) -> Result<Option<Vec<u8>>, Memory>
        ensures { IfOk result (λ found. IsTextOf (message_at self.now.world.net number) (option_map (λ t. t.items) found)) }
    {
        match message_place(number, self.net.len()) {
            None => Ok(None),
            Some(at) => Ok(Some(self.net.text(at)?)),
        }
    }

    /// The groups of a node with their lengths and seals, ascending by name; for a node that is
    /// down, those that the files recover.
    pub fn held(&self, node: NodeId) -> Result<Vec<Shelf>, Memory>
        requires { IsNode (length (ids self.now.world)) node }
        ensures { IfOk result (λ lines. lines.items ≡ shelf (node_in self.now.world node).groups) }
    {
        let at = node.index();
        let process = &self.processes[at];
        let lines = process.held()?;
        Ok(lines)
    }

    /// The digest of a node's files: of its control part, and of the lengths and seals of its
    /// groups.
    pub fn digest(&self, node: NodeId) -> Result<Vec<u8>, Memory>
        requires { IsNode (length (ids self.now.world)) node }
        ensures { IfOk result (λ digits. let n = node_in self.now.world node in digits.items ≡ digest_text n.control.kept (shelf n.groups)) }
    {
        let at = node.index();
        let process = &self.processes[at];
        let digits = process.digest()?;
        Ok(digits)
    }

    /// The state of a node; for a node that is down, the state that its files recover.
    pub fn status(&self, node: NodeId) -> Result<NodeStatus, Memory>
        requires { IsNode (length (ids self.now.world)) node }
        ensures { IfOk result (λ status. status ≡ status_in self.now.world node) }
    {
        let at = node.index();
        let process = &self.processes[at];
        let status = process.status()?;
        Ok(status)
    }

    /// The disks of a node's files, those of the control files before that of the content; none if
    /// there is no such node.
    pub fn into_disks(self, node: NodeId) -> Option<(MemDisk, MemDisk, MemDisk)>
        ensures found { IsSome result ↔ IsNode (length (ids self.world)) node }

        // Every crash of the disks leaves the durable part of the node, and for node 1 the source.
        ensures survives { IfSome result (λ left. let n = node_in self.world node in
            Survives view_of (header_of n.control) node (disks left.0 left.1 left.2) n) }
        ensures source { IfSome result (λ left. node ≡ 1 → (content : List ℕ)
            → (view_of left.2).may_leave content → groups_in (frames_of content) ≡ self.world.source) }
    {
        if !self.has(node) {
            return None;
        }
        let at = node.index();
        let World {
            alloc: _,
            chain: _,
            mut processes,
            net: _,
        } = self;
        let process = processes.swap_remove(at);
        Some(process.into_disks())
    }

    /// Whether there is a node of this number.
    fn has(&self, node: NodeId) -> bool
        ensures { IsTrue result ↔ IsNode (length (ids self.now.world)) node }
    {
        1 <= node.0 && node.0 <= self.count()
    }

    /// Whether the world is settled: one node that is up acts as root, every other one that is up
    /// has a true chain to it and its lease, no other lease is held, and no report waits to be
    /// sent. Takes no memory.
    pub fn settled(&self) -> bool
        ensures { IsTrue result ↔ IsSettled self.now.world }
    {
        tests_decide();
        is_settled(self)
    }

    /// A node, which must be up.
    pub(crate) fn node(&self, node: NodeId) -> &Node
        requires { IsUpNode self.now.world node }
        ensures control { result.now.control ≡ (node_in self.now.world node).control }
        ensures lawful { IsLawfulControl (length (ids self.now.world)) (node_in self.now.world node).control }
    {
        let at = node.index();
        let process = &self.processes[at];
        process.node()
    }

    /// Whether a node is up.
    pub(crate) fn runs(&self, node: NodeId) -> bool
        requires { IsNode (length (ids self.now.world)) node }
        ensures { result ≡ is_up self.now.world node }
    {
        let at = node.index();
        self.processes[at].is_up()
    }

    /// The number of nodes.
    pub fn count(&self) -> u32
        ensures ids { ids self.now.world ≡ range_with_len 1 result }
        ensures few { result ≤ MAX_NODES }
    {
        self.processes.len() as u32
    }

    /// The number of messages that were ever sent.
    pub fn sent_count(&self) -> u64
        ensures count { result ≡ length self.now.world.net }
        ensures few { result < 2 ^ 63 }
    {
        self.net.len() as u64
    }

    /// Whether the last message sent acknowledges a check-in.
    pub(crate) fn ends_with_ack(&self) -> bool
        ensures { result ≡ is_ack (last_body self.now.world) }
    {
        self.net.ends_with_ack()
    }

    /// The length of the chain.
    pub(crate) fn chain_length(&self) -> u32
        ensures { HasChain self.now.world result }
    {
        self.chain
    }
}

/// The word of a stop, given whether the frame that was being written was kept.
fn stop_word(kept_new: bool) -> Word
    ensures { result ≡ (if kept_new then Word.StoppedNew else Word.StoppedOld) }
{
    if kept_new {
        Word::StoppedNew
    } else {
        Word::StoppedOld
    }
}
