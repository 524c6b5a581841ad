ghost use Rattle.std.specs.Prelude.{◌≡◌, ◌≢◌, ◌↔◌, ◌⊎◌, ◌&&◌, if◌then◌else◌, ℕ, ◌+◌, ◌-◌, ◌<◌, ◌≤◌, ◌^◌, false, true, length, take, drop, None, IsTrue, IsOk, IsErrOf, OnOk, OnErr, IfOk, IfErr};
ghost use Rattle.std.specs.List.{AllByRecursion};
ghost use Rattle.oc_base.specs.Groups.{bytes_of, shelf};
ghost use Rattle.oc_base.specs.Lawful.{IsNode};
ghost use Rattle.oc_base.specs.Shelves.{held_of};
ghost use Rattle.oc_base.specs.Stops.{is_kept_new};
ghost use Rattle.oc_base.specs.declared.limits.TheConstants.{DUE_BYTES, MAX_AREA, MAX_LOG_LENGTH};
ghost use Rattle.oc_keep.specs.Errors.{IsOutOfMemory};
ghost use Rattle.oc_keep.specs.Files.{AllGoOn, AreHonest, AreReliable, SameAsEither, disks_in, SameDurable, Survives, disks};
ghost use Rattle.oc_keep.specs.KeptView.{AtAnyMoment, IsFullAt, IsFullOn, IsHonest, IsKept, IsRipe, NodeSurvives, disks_of, going_by, header_of, node_of};
ghost use Rattle.oc_keep.specs.Promises.{ChangesNothing, Closes, HoldFiles, IsNodeOf, IsSameNode, IsTurnedOver, LeavesFiles, LoadsSafely, RefusesNode};
ghost use Rattle.oc_keep.specs.ReadyView.{AreLeftAs, CanCommit, CanStopWrite, IsFullToWrite, OthersStay, is_written, outcome_of, told_of};
ghost use Rattle.oc_laws_step.specs.LawfulNode.{IsLawfulNode};
ghost use Rattle.oc_node.specs.NodeView.{IsReached};
ghost use Rattle.oc_keep.specs.Calls.{Commits, FailsToCommit, FailsToReady, FailsToTidy, IsReadyFor, IsSameOnFiles, KeepsNode, RefusesInput, StaysTheSame, TakesInput, Tidies};
ghost use Rattle.oc_model.specs.Lawful.{IsHeader, IsInput};
ghost use Rattle.oc_model.specs.NextWorld.{writes};
ghost use Rattle.oc_model.specs.Step.{step};
ghost use Rattle.oc_io.specs.MemDiskView.{view_of};

use crate::errors::{CommitError, KeepError, KeepLoad, KeptRead, ReadyError, TidyError};
use crate::files::Files;
use crate::ready::{Parts, Ready, Write};
use crate::readying::{make_ready, making_failed};
use crate::seat::Seat;
use crate::starting::start;
use crate::turning::{replace, turning_failed};
use crate::writing::put;
use oc_base::{GroupName, Memory, NodeId, Shelf};
use oc_content::{Content, ReadError};
use oc_io::{Disk, Failed, MemDisk};
use oc_laws_step::snapshots_stand_for_all;
use oc_model::Input;
use oc_node::{Node, Outcome};
use oc_store::{Store, frames_add_their_records};
use std::alloc::Global;
use std::marker::Model;

/// A node on its three files. A contract sees the node, its control files, its content file, and
/// whether it is closed since a disk failed.
#[derive(Drop)]
pub struct Kept<D: Disk> {
    alloc: Global,
    node: Node,
    store: Store<D>,
    content: Content<D>,
    closed: bool,
}

impl<D: Disk> Model for Kept<D> {
    ghost use Rattle.oc_keep.specs.KeptView.{IsKept, KeptView, kept_of};

    ghost Value = { KeptView D };

    ghost view = { λ k. kept_of k.node k.store k.content k.closed };

    ghost invariant = { λ k. IsKept D.view (kept_of k.node k.store k.content k.closed) };
}

impl<D: Disk> Kept<D> {
    /// Loads a node from its three files, and starts it. The files are read in order, each whole before the next; a
    /// file of at most 9 bytes is new, and its header is written. On a refusal the disks come back.
    pub fn load(alloc: Global, files: Files<D>, seat: Seat) -> Result<Kept<D>, (Files<D>, KeepLoad)>
        requires header { IsHeader seat.header }
        requires id { IsNode seat.header.nodes seat.id }

        // The node is the one that the files recover, and every crash now leaves it.
        ensures loaded { IfOk result (λ kept. IsNodeOf D.view seat.header seat.id (disks_in files) kept) }

        // A crash at any moment leaves what a crash at the start would have left.
        ensures safely { IfOk result (λ kept. LoadsSafely D.view seat.header seat.id (disks_in files) (disks_of kept)) }
        ensures safely_err { IfErr result (λ refused. LoadsSafely D.view seat.header seat.id (disks_in files) (disks_in refused.0)) }

        // The causes of a refusal.
        ensures refuses { IfErr result (λ refused. RefusesNode D.view seat.header.nodes (disks_in files) (disks_in refused.0) refused.1) }

        // The files of a node on reliable disks are loaded.
        ensures works { IfErr result (λ refused. AreReliable D.view (disks_in files)
            → HoldFiles D.view seat.header.nodes (disks_in files) → IsOutOfMemory refused.1) }
    {
        let ids = seat.nodes();
        Kept::load_among(alloc, files, seat, ids)
    }

    /// Loads a node whose files may tell of the nodes up to this id, of more that its network has room for: a file that tells
    /// of a later one is refused. All else is as with [`Kept::load`].
    pub fn load_among(
        alloc: Global,
        files: Files<D>,
        seat: Seat,
        ids: u32,
    ) -> Result<Kept<D>, (Files<D>, KeepLoad)>
        requires header { IsHeader seat.header }
        requires id { IsNode seat.header.nodes seat.id }
        requires ids { ids ≤ seat.header.nodes }

        // The node is the one that the files recover, and every crash now leaves it.
        ensures loaded { IfOk result (λ kept. IsNodeOf D.view seat.header seat.id (disks_in files) kept) }
        ensures files { IfOk result (λ _. AreHonest D.view (disks_in files) → HoldFiles D.view ids (disks_in files)) }

        // A crash at any moment leaves what a crash at the start would have left.
        ensures safely { IfOk result (λ kept. LoadsSafely D.view seat.header seat.id (disks_in files) (disks_of kept)) }
        ensures safely_err { IfErr result (λ refused. LoadsSafely D.view seat.header seat.id (disks_in files) (disks_in refused.0)) }

        // The causes of a refusal.
        ensures refuses { IfErr result (λ refused. RefusesNode D.view ids (disks_in files) (disks_in refused.0) refused.1) }

        // The files of a node on reliable disks are loaded.
        ensures works { IfErr result (λ refused. AreReliable D.view (disks_in files)
            → HoldFiles D.view ids (disks_in files) → IsOutOfMemory refused.1) }
    {
        let Files {
            control,
            alternate,
            content,
        } = files;
        let (store, list) = match Store::load(alloc, control, alternate, ids) {
            Ok(loaded) => loaded,
            Err((control, alternate, error)) => {
                return Err((
                    Files {
                        control,
                        alternate,
                        content,
                    },
                    KeepLoad::Store(error),
                ));
            }
        };
        let content = match Content::load(alloc, content) {
            Ok(content) => content,
            Err((content, cause)) => {
                let (control, alternate) = store.into_disks();
                return Err((
                    Files {
                        control,
                        alternate,
                        content,
                    },
                    KeepLoad::Content(cause),
                ));
            }
        };
        match start(alloc, seat, &list, store.end()) {
            Ok(node) => Ok(Kept {
                alloc,
                node,
                store,
                content,
                closed: false,
            }),
            Err(Memory) => {
                let (control, alternate) = store.into_disks();
                Err((
                    Files {
                        control,
                        alternate,
                        content: content.into_disk(),
                    },
                    KeepLoad::Memory,
                ))
            }
        }
    }

    /// Takes an input: makes it ready, and commits it. The messages are handed out only once the durable part of
    /// the step is safe. After `Disk` the node is closed.
    pub fn take(&mut self, input: Input) -> Result<Outcome, KeepError>
        requires { IsInput self.old.node.control.nodes self.old.node.control.me input }

        // The outcome and the node are those of the step; otherwise the node is as it was, for this cause.
        ensures took { IfOk result (λ outcome. TakesInput D.view input outcome self.old self.new) }
        ensures refused { IfErr result (λ error. RefusesInput D.view error input self.old self.new) }
        ensures closed { IsErrOf result KeepError.Closed ↔ IsTrue self.old.closed }

        // A crash at any moment leaves the node before the input or after it.
        ensures same { IsSameOnFiles D.view self.old self.new }
        ensures any_moment { self.old.closed ≡ false → IsHonest D.view self.old
            → AtAnyMoment D.view self.old self.new
            (SameAsEither (node_of self.old) (step (node_of self.old) input).node) }

        // An open node on reliable disks takes the input, if there is the memory.
        ensures works { self.old.closed ≡ false → AreReliable D.view (disks_of self.old)
            → IfErr result (λ error. error ≡ KeepError.Memory) }
    {
        let made = self.ready(&input);
        // Dropped by a call, the input costs one proof; out of scope it costs one at each return.
        drop(input);
        let ready = made?;
        Ok(self.commit(ready)?)
    }

    /// Makes an input ready: takes all memory for its step, reads the bytes that the step sends, and changes
    /// nothing. After `Disk` the node is closed.
    pub fn ready(&mut self, input: &Input) -> Result<Ready, ReadyError>
        requires { IsInput self.old.node.control.nodes self.old.node.control.me input.now }

        // The prepared input will do the step, and can be committed.
        ensures made { IfOk result (λ ready. IsReadyFor D.view input.now ready self.old self.new) }
        ensures refused { IfErr result (λ error. FailsToReady D.view error input.now self.old self.new) }
        ensures closed { IsErrOf result ReadyError.Closed ↔ IsTrue self.old.closed }

        // Nothing changes, and every crash leaves the same node.
        ensures same { StaysTheSame D.view self.old self.new }

        // The input is made ready on reliable disks, if there is the memory.
        ensures works { self.old.closed ≡ false → AreReliable D.view (disks_of self.old)
            → IfErr result (λ error. error ≡ ReadyError.Memory) }
    {
        if self.closed {
            return Err(ReadyError::Closed);
        }
        let made = make_ready(
            self.alloc,
            &mut self.node,
            &mut self.store,
            &mut self.content,
            input,
        );
        self.closed = making_failed(&made);
        made
    }

    /// Takes an input that was made ready since the last change: writes the durable part of its step, then changes
    /// the node, and hands out its messages. It takes no memory. After `Disk` the node is closed.
    pub fn commit(&mut self, ready: Ready) -> Result<Outcome, CommitError>
        requires open { self.old.closed ≡ false }
        requires ready { CanCommit D.view self.old ready }

        // The prepared input is done, and every crash now leaves the node.
        ensures committed { IfOk result (λ outcome. Commits D.view ready outcome self.old self.new) }
        ensures refused { IfErr result (λ error. FailsToCommit D.view error self.old self.new) }
        ensures full { IsErrOf result CommitError.Full ↔ IsFullToWrite self.old ready.write }

        // A crash at any moment leaves the node before the input or after it.
        ensures same { IsSameOnFiles D.view self.old self.new }
        ensures any_moment { IsHonest D.view self.old → AtAnyMoment D.view self.old self.new
            (SameAsEither (node_of self.old) (outcome_of (node_of self.old) ready).node) }

        // The input is taken on reliable disks.
        ensures works { AreReliable D.view (disks_of self.old) → IsOk result }
    {
        frames_add_their_records();
        let Parts { plan, write } = ready.into_parts();
        match put(&mut self.store, &mut self.content, write) {
            Ok(()) => Ok(self.node.apply(plan)),
            Err(CommitError::Full) => Err(CommitError::Full),
            Err(CommitError::Disk) => {
                self.closed = true;
                Err(CommitError::Disk)
            }
        }
    }

    /// Turns the control files over, if they can be: writes a snapshot of the node to the control file that is not
    /// current, which makes that the current one. It answers whether it did. After `Disk` the node is closed.
    pub fn tidy(&mut self) -> Result<bool, TidyError>
        ensures ripe { IfOk result (λ turned. IsTrue turned ↔ IsRipe self.old) }
        ensures turned { IfOk result (λ turned. Tidies D.view turned self.old self.new) }
        ensures refused { IfErr result (λ error. FailsToTidy D.view error self.old self.new) }
        ensures closed { IsErrOf result TidyError.Closed ↔ IsTrue self.old.closed }

        // The node is as it was, and a crash at any moment leaves it.
        ensures keeps { KeepsNode D.view self.old self.new }

        // Where the current file is not long, nothing is done, which takes no memory.
        ensures idle { self.old.closed ≡ false → ¬ (DUE_BYTES < self.old.store.current.end) → IsOk result }

        // On reliable disks the files of an open node are turned over, if there is the memory.
        ensures works { self.old.closed ≡ false → AreReliable D.view (disks_of self.old)
            → IfErr result (λ error. error ≡ TidyError.Memory) }
    {
        frames_add_their_records();
        snapshots_stand_for_all();
        if self.closed {
            return Err(TidyError::Closed);
        }
        if !self.store.due() {
            return Ok(false);
        }
        let turned = replace(&self.node, &mut self.store);
        self.closed = turning_failed(&turned);
        turned
    }

    /// Reads the bytes of a group from an offset on, as many as fit, and answers how many. After `Disk` the node is
    /// closed.
    pub fn read(&mut self, group: &GroupName, start: u64, buf: &mut [u8]) -> Result<usize, KeptRead>
        ensures within { IfOk result (λ n. n ≤ length buf.old) }
        ensures bytes { IfOk result (λ n. IsHonest D.view self.old
            → take n buf.new ≡ take (length buf.old) (drop start (bytes_of group.now (node_of self.old).groups))) }

        // Nothing changes, and every crash leaves the same node.
        ensures same { StaysTheSame D.view self.old self.new }

        // The causes of a refusal.
        ensures closed { IsErrOf result KeptRead.Closed ↔ IsTrue self.old.closed }
        ensures no_group { IsErrOf result KeptRead.NoGroup
            ↔ ((self.old.closed ≡ false) × (held_of group.now self.old.content.shelves ≡ None)) }
        ensures disk { IsErrOf result KeptRead.Disk → Closes D.view self.old self.new }
        ensures stays_open { ¬ IsErrOf result KeptRead.Disk → self.new.closed ≡ self.old.closed }

        // A held group is read on reliable disks.
        ensures works { self.old.closed ≡ false → AreReliable D.view (disks_of self.old)
            → IfErr result (λ error. error ≡ KeptRead.NoGroup) }
    {
        if self.closed {
            return Err(KeptRead::Closed);
        }
        match self.content.read(group, start, buf) {
            Ok(count) => Ok(count),
            Err(ReadError::NoGroup) => Err(KeptRead::NoGroup),
            Err(ReadError::Disk) => {
                self.closed = true;
                Err(KeptRead::Disk)
            }
        }
    }

    /// Reads ahead the bytes that a child is likely to ask for next, so that they are sent without a read. After an
    /// error the node is closed.
    pub fn read_ahead(&mut self) -> Result<(), Failed>
        // Nothing changes, and every crash leaves the same node.
        ensures same { StaysTheSame D.view self.old self.new }

        // The call fails where the node was closed, and where a disk fails now.
        ensures open { OnOk result ((self.old.closed ≡ false) × (self.new.closed ≡ false)) }
        ensures failed { OnErr result
            ((IsTrue self.old.closed × (self.new ≡ self.old)) ⊎ Closes D.view self.old self.new) }

        // The call succeeds on reliable disks at an open node.
        ensures works { self.old.closed ≡ false → AreReliable D.view (disks_of self.old) → IsOk result }
    {
        if self.closed {
            return Err(Failed);
        }
        match self.content.read_ahead(self.alloc) {
            Ok(()) => Ok(()),
            Err(failed) => {
                self.closed = true;
                Err(failed)
            }
        }
    }

    /// Whether the current control file is long, and a greater generation is left.
    pub fn is_due(&self) -> bool
        ensures { IsTrue result ↔ ((DUE_BYTES < self.now.store.current.end) × (self.now.store.generation < 2 ^ 64 - 1)) }
    {
        self.store.due()
    }

    /// The generation of the current control file; 0 where it has no frame.
    pub fn generation(&self) -> u64
        ensures { result ≡ self.now.store.generation }
    {
        self.store.generation()
    }

    /// Whether a disk failed in an earlier call.
    pub fn is_closed(&self) -> bool
        ensures { result ≡ self.now.closed }
    {
        self.closed
    }

    /// The node. [`Kept::recovers`] gives the properties of the node.
    pub fn node(&self) -> &Node
        ensures { result.now ≡ self.now.node }
    {
        &self.node
    }

    /// Goes by these areas of the nodes from now on. The files tell no areas, and nothing is written.
    pub fn set_areas(&mut self, areas: Vec<u8>)
        requires many { length areas.items ≡ self.old.node.control.nodes }
        requires bytes { AllByRecursion (λ a. a ≤ MAX_AREA) areas.items }
        ensures { self.new ≡ going_by areas.items self.old }
    {
        self.node.set_areas(areas);
    }

    /// The invariant between any two calls: the node is one that inputs and starts lead to, its change log is
    /// within its limit, the lines of the content are those of its groups, and while no disk failed every crash
    /// leaves the durable part of the node.
    pub fn recovers(&self)
        ensures reached { IsReached self.now.node.control }
        ensures lawful { IsHonest D.view self.now → IsLawfulNode self.now.node.control.nodes (node_of self.now) }
        ensures short { self.now.node.control.kept.log.length ≤ MAX_LOG_LENGTH }
        ensures groups { IsHonest D.view self.now → self.now.content.shelves ≡ shelf (node_of self.now).groups }
        ensures survives { self.now.closed ≡ false → IsHonest D.view self.now
            → NodeSurvives D.view self.now (node_of self.now) }
    {
        // The clause of this call says that the shelf is lawful; the property `lawful` uses that.
        let _shelf = self.content.groups();
    }

    /// The held groups, ascending by name, with their lengths and seals.
    pub fn shelf(&self) -> &[Shelf]
        ensures shelf { result.now ≡ self.now.content.shelves }
        ensures groups { IsHonest D.view self.now → result.now ≡ shelf (node_of self.now).groups }
    {
        self.content.groups()
    }

    /// The disks: those of the control files, and then that of the content file.
    pub fn into_disks(self) -> (D, D, D)
        ensures disks { disks result.0 result.1 result.2 ≡ disks_of self }

        // While no disk failed, every crash leaves files of a node, which are full for each input for which these
        // files are full.
        ensures files { self.closed ≡ false → IsHonest D.view self
            → LeavesFiles D.view self.node.control.nodes (disks_of self) }
        ensures full { self.closed ≡ false → IsHonest D.view self
            → (i : Input) → IsFullAt self i → IsFullOn D.view (disks_of self) (node_of self) i }
    {
        let Kept {
            alloc: _,
            node,
            store,
            content,
            closed: _,
        } = self;
        // Dropping the node by a call takes less to prove than dropping it at the end of its scope.
        drop(node);
        let (control, alternate) = store.into_disks();
        (control, alternate, content.into_disk())
    }
}

impl Kept<MemDisk> {
    /// Takes an input that was made ready as `commit` does, with a stop after `calls` of the four calls that write
    /// its frame, if it writes one, and hands back the files that a crash leaves then. `image` is the byte at each
    /// place that was written and not synced. It takes no memory.
    pub fn commit_stopped(self, ready: Ready, calls: u8, image: u8) -> (MemDisk, MemDisk, MemDisk)
        requires open { self.closed ≡ false }
        requires ready { CanCommit view_of self ready }
        requires calls { calls ≤ 4 }
        requires stops { CanStopWrite self ready.write }

        // Every crash of the disks leaves the node after the input where a frame is written and kept, and otherwise
        // the node before.
        ensures survives { Survives view_of (header_of self.node.control) self.node.control.me (disks result.0 result.1 result.2)
            (if is_written ready.write && is_kept_new calls image then (outcome_of (node_of self) ready).node else node_of self) }

        // The disks have the files of a node.
        ensures files { LeavesFiles view_of self.node.control.nodes (disks result.0 result.1 result.2) }

        // The written disk is left new, without a stop or a fault, and the others are as they were.
        ensures disks { AreLeftAs (disks_of self) (disks result.0 result.1 result.2) }
        ensures others { OthersStay ready.write self.store.side (disks_of self) (disks result.0 result.1 result.2) }
    {
        frames_add_their_records();
        let (store, content, write) = files_of(self, ready);
        match write {
            Write::Nothing => {
                let (control, alternate) = store.into_disks();
                (control, alternate, content.into_disk())
            }
            Write::Records(frame) => {
                let (control, alternate) = store.commit_stopped(&frame, calls, image);
                (control, alternate, content.into_disk())
            }
            Write::Content(piece) => {
                let (control, alternate) = store.into_disks();
                (
                    control,
                    alternate,
                    content.commit_stopped(piece, calls, image),
                )
            }
        }
    }
}

/// The files of a node, and the write of a prepared input. The rest is dropped here, where the disk is a parameter:
/// for a known disk there is far more to prove.
fn files_of<D: Disk>(kept: Kept<D>, ready: Ready) -> (Store<D>, Content<D>, Write)
    ensures store { result.0 ≡ kept.store }
    ensures content { result.1 ≡ kept.content }
    ensures write { result.2 ≡ ready.write }
    ensures kept { IsKept D.view kept }
{
    let Parts { plan, write } = ready.into_parts();
    let Kept {
        alloc: _,
        node,
        store,
        content,
        closed: _,
    } = kept;
    drop(plan);
    drop(node);
    (store, content, write)
}
