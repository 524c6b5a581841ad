//! A node, and whether it is up.

ghost use Rattle.std.specs.Prelude.{◌≡◌, ◌≤◌, true, false, if◌then◌else◌, is_some, IfOk, OnOk, OnErr};
ghost use Rattle.std.specs.List.{AllByRecursion};
ghost use Rattle.oc_base.specs.Groups.{shelf};
ghost use Rattle.oc_base.specs.Lawful.{IsNode};
ghost use Rattle.oc_keep.specs.Files.{Survives, disks};
ghost use Rattle.oc_keep.specs.KeptView.{header_of, node_of};
ghost use Rattle.oc_keep.specs.Promises.{IsSameNode};
ghost use Rattle.oc_keep.specs.ReadyView.{is_written, outcome_of, told_of};
ghost use Rattle.oc_laws_step.specs.LawfulNode.{IsLawfulControl};
ghost use Rattle.oc_model.specs.Lawful.{IsHeader, IsInput, IsMessage};
ghost use Rattle.oc_model.specs.NextWorld.{keeps_write, stopped, writes};
ghost use Rattle.oc_model.specs.Node.{new_node, restarted};
ghost use Rattle.oc_model.specs.Step.{step};
ghost use Rattle.oc_model.specs.World.{down};
ghost use Rattle.oc_io.specs.MemDiskView.{view_of};
ghost use Rattle.oc_model.specs.Status.{status_of};
ghost use Rattle.oc_replay.specs.Digests.{digest_text};
ghost use Rattle.oc_world.specs.ProcessView.{CanCommitTo, Renews, generation_of, resting};
ghost use Rattle.oc_world.specs.ProcessState.{IsOpen, IsRunning};

use crate::process_state::{ProcessState, copied, empty_files};
use crate::process_status::{
    digest_of, digest_recovered, groups_of, groups_recovered, lawful_node,
};
use crate::{process_acts, starting, stopping};
use oc_base::{Memory, NodeId, Shelf};
use oc_io::MemDisk;
use oc_journal::is_kept_new;
use oc_keep::{Files, Kept, Node, Outcome, Ready, Seat, status_of, status_recovered};
use oc_model::{Header, Input, NodeStatus};
use std::alloc::Global;
use std::marker::Model;

/// A node with its files, which remain when the node goes down. Contracts see the model's process,
/// and the node on its files while it is up. While it is down, the process is the node that its
/// files recover. Every crash leaves the durable part of the node.
#[derive(Drop)]
pub struct Process {
    alloc: Global,
    seat: Seat,
    state: ProcessState<MemDisk>,
}

impl Model for Process {
    ghost use Rattle.oc_base.specs.Lawful.{IsNode};
    ghost use Rattle.oc_model.specs.Lawful.{IsHeader};
    ghost use Rattle.oc_world.specs.ProcessView.{ProcessView};
    ghost use Rattle.oc_world.specs.ProcessState.{IsStateOf, process_of};

    ghost Value = { ProcessView };

    ghost view = { λ p. process_of p.seat.header p.seat.id p.state };

    ghost invariant = { λ p. IsHeader p.seat.header × IsNode p.seat.header.nodes p.seat.id
        × IsStateOf p.seat.header p.seat.id p.state };
}

impl Process {
    /// A new node that is down, on empty files.
    pub fn new(alloc: Global, id: NodeId, header: &Header) -> Result<Process, Memory>
        requires header { IsHeader header.now }
        requires id { IsNode header.now.nodes id }
        ensures { IfOk result (λ process. process ≡ resting (down (new_node header.now id))) }
    {
        let seat = Seat::new(alloc, id, header)?;
        Ok(Process {
            alloc,
            seat,
            state: ProcessState::Stopped(empty_files(alloc)),
        })
    }

    /// Whether the node is up.
    pub fn is_up(&self) -> bool
        ensures up { result ≡ self.now.process.up }
        ensures kept { result ≡ is_some self.now.kept }
    {
        matches!(self.state, ProcessState::Running(_))
    }

    /// The node on its files. The node must be up.
    fn kept(&self) -> &Kept<MemDisk>
        requires { self.now.process.up ≡ true }
        ensures node { node_of result.now ≡ self.now.process.node }
        ensures open { IsOpen view_of result.now }
    {
        match &self.state {
            ProcessState::Running(kept) => kept,
            ProcessState::Stopped(_) => unreachable!(),
        }
    }

    /// The node, which must be up.
    pub fn node(&self) -> &Node
        requires { self.now.process.up ≡ true }
        ensures control { result.now.control ≡ self.now.process.node.control }
        ensures lawful { IsLawfulControl self.now.process.node.control.nodes self.now.process.node.control }
    {
        lawful_node(self.kept())
    }

    /// Starts a node that is down. If memory runs out, the node is unchanged.
    pub fn start(&mut self) -> Result<(), Memory>
        requires { self.old.process.up ≡ false }
        ensures ok { OnOk result (self.new.process ≡ record { node = restarted self.old.process.node; up = true }) }
        ensures err { OnErr result (self.new ≡ self.old) }
    {
        let kept = self.load()?;
        self.state.set(ProcessState::Running(kept));
        Ok(())
    }

    /// The node that the files of a node that is down recover, read from copies of the files, which
    /// therefore are unchanged if memory runs out.
    fn load(&self) -> Result<Kept<MemDisk>, Memory>
        requires { self.now.process.up ≡ false }
        ensures running { IfOk result (λ kept.
            IsRunning view_of (header_of self.now.process.node.control) self.now.process.node.control.me kept) }
        ensures node { IfOk result (λ kept. node_of kept ≡ self.now.process.node) }
    {
        match &self.state {
            ProcessState::Running(_) => unreachable!(),
            ProcessState::Stopped(files) => {
                let copy = copied(files)?;
                starting::load(self.alloc, copy, &self.seat)
            }
        }
    }

    /// Crashes a node that is up.
    pub fn crash(&mut self)
        requires { self.old.process.up ≡ true }
        ensures { self.new.process ≡ stopped self.old.process.node }
    {
        let kept = self.state.take_running(empty_files(self.alloc));
        let files = stopping::crash(kept);
        self.state.set(ProcessState::Stopped(files));
    }

    /// Prepares an input at a node that is up. Its control files are first turned over if they are
    /// ripe. The node is unchanged.
    pub fn ready(&mut self, input: &Input) -> Result<Ready, Memory>
        requires up { self.old.process.up ≡ true }
        requires input { IsInput self.old.process.node.control.nodes self.old.process.node.control.me input.now }
        ensures process { self.new.process ≡ self.old.process }
        ensures step { IfOk result (λ ready. outcome_of self.old.process.node ready ≡ step self.old.process.node input.now) }
        ensures writes { IfOk result (λ ready. is_written ready.write ≡ writes self.old.process.node input.now) }
        ensures commits { IfOk result (λ ready. CanCommitTo self.new.kept ready) }
        ensures lawful { IfOk result (λ ready. AllByRecursion (IsMessage self.old.process.node.control.nodes) ready.plan.sends) }
        ensures renews { OnOk result (Renews self.old.kept self.new.kept) }
    {
        match &mut self.state {
            ProcessState::Running(kept) => process_acts::ready(kept, input),
            ProcessState::Stopped(_) => unreachable!(),
        }
    }

    /// Performs an input that was prepared since the last change. Takes no memory.
    pub fn commit(&mut self, ready: Ready) -> Outcome
        requires { CanCommitTo self.old.kept ready }
        ensures outcome { result ≡ told_of (outcome_of self.old.process.node ready) }
        ensures process { self.new.process ≡ record { node = (outcome_of self.old.process.node ready).node; up = true } }
        ensures same { IsSameNode self.old.process.node.control self.new.process.node.control }
        ensures generation { generation_of self.new.kept ≡ generation_of self.old.kept }
    {
        match &mut self.state {
            ProcessState::Running(kept) => process_acts::commit(kept, ready),
            ProcessState::Stopped(_) => unreachable!(),
        }
    }

    /// Stops a node that is up, partway through an input, once `calls` of the calls that write its
    /// frame have worked; the byte `image` is found at each place that was written and not synced.
    /// Gives whether the frame is kept. If memory runs out, the node is unchanged.
    pub fn stop(&mut self, input: &Input, calls: u8, image: u8) -> Result<bool, Memory>
        requires up { self.old.process.up ≡ true }
        requires input { IsInput self.old.process.node.control.nodes self.old.process.node.control.me input.now }
        requires calls { calls ≤ 4 }
        ensures kept_new { IfOk result (λ kept_new. kept_new ≡ keeps_write calls image self.old.process.node input.now) }
        ensures process { OnOk result (self.new.process ≡ stopped
            (if keeps_write calls image self.old.process.node input.now then (step self.old.process.node input.now).node else self.old.process.node)) }
        ensures same { IsSameNode self.old.process.node.control self.new.process.node.control }
        ensures process_err { OnErr result (self.new.process ≡ self.old.process) }
    {
        let ready = self.ready(input)?;
        let kept_new = ready.writes() && is_kept_new(calls, image);
        let kept = self.state.take_running(empty_files(self.alloc));
        let files = stopping::stop(kept, ready, calls, image);
        self.state.set(ProcessState::Stopped(files));
        Ok(kept_new)
    }

    /// The disks of the node's files, those of the control files before that of the content. Every
    /// crash of them leaves the durable part of the node.
    pub fn into_disks(self) -> (MemDisk, MemDisk, MemDisk)
        ensures { Survives view_of (header_of self.process.node.control) self.process.node.control.me
            (disks result.0 result.1 result.2) self.process.node }
    {
        let Process {
            alloc: _,
            seat: _,
            state,
        } = self;
        match state {
            ProcessState::Running(kept) => kept.into_disks(),
            ProcessState::Stopped(files) => {
                let Files {
                    control,
                    alternate,
                    content,
                } = files;
                (control, alternate, content)
            }
        }
    }

    /// The groups of the node with their lengths and seals, ascending by name.
    pub fn held(&self) -> Result<Vec<Shelf>, Memory>
        ensures { IfOk result (λ lines. lines.items ≡ shelf self.now.process.node.groups) }
    {
        if self.is_up() {
            return groups_of(self.alloc, self.kept());
        }
        groups_recovered(self.alloc, self.load()?)
    }

    /// The digest of the node's files.
    pub fn digest(&self) -> Result<Vec<u8>, Memory>
        ensures { IfOk result (λ digits. digits.items
            ≡ digest_text self.now.process.node.control.kept (shelf self.now.process.node.groups)) }
    {
        if self.is_up() {
            return digest_of(self.alloc, self.kept());
        }
        digest_recovered(self.alloc, self.load()?)
    }

    /// The state of the node.
    pub fn status(&self) -> Result<NodeStatus, Memory>
        ensures { IfOk result (λ status. status ≡ status_of self.now.process.node.control self.now.process.up) }
    {
        if self.is_up() {
            return status_of(self.kept(), true);
        }
        status_recovered(self.load()?)
    }
}
