//! A run over a world in memory, and the disks that it leaves.

ghost use Rattle.std.specs.Prelude.{◌≡◌, ◌↔◌, ℕ, List, [], length, IsSome, IfSome};
ghost use Rattle.oc_base.specs.Lawful.{IsNode};
ghost use Rattle.oc_keep.specs.Files.{Survives, disks, disks_in};
ghost use Rattle.oc_keep.specs.KeptView.{header_of};
ghost use Rattle.oc_model.specs.World.{ids, node as node_in};
ghost use Rattle.oc_io.specs.MemDiskView.{view_of};
ghost use Rattle.oc_commands.specs.Ends.{status_of};
ghost use Rattle.oc_commands.specs.Lines.{file_told, line_of};
ghost use Rattle.oc_commands.specs.Outside.{at_files, at_link, at_node, at_sink, at_source, at_stage};
ghost use Rattle.oc_commands.specs.Run.{Happened, IsWrittenOrCut};
ghost use Rattle.oc_commands.specs.Telling.{at_error};
ghost use Rattle.oc_words.specs.Status.{number_of};
ghost use Rattle.oc_commands.specs.declared.ending.End.{End};
ghost use Rattle.oc_words.specs.Words.{asked, texts_of};
ghost use Rattle.oc_world.specs.World.{WorldView};

use crate::{Ended, Outside, run};
use oc_base::NodeId;
use oc_client::Pause;
use oc_io::{Disk, MemDisk, Sink, Source};
use oc_link::{Dialler, Link};
use oc_world::World;
use std::alloc::Global;

/// The result of a run over a world in memory, with the disks of one node of that world.
#[derive(Drop)]
pub struct Left<S: Source, K: Sink, E: Sink, D: Disk, L: Dialler, N: Link, P: Pause> {
    pub status: u8,
    pub disks: Option<(MemDisk, MemDisk, MemDisk)>,
    /// The outside, with a new world.
    pub outside: Outside<S, K, E, World, D, L, N, P>,
}

/// Runs the program as [`run`] does over a world in memory, new or not, and gives the disks of one
/// of its nodes: those of the control files before that of the content, or none if the world has no
/// such node.
///
/// The world is the one to which the schedule led, and every crash of the disks leaves the durable
/// part of the node in it. A prefix of a schedule is one too, so this holds after each event.
pub fn run_to_disks<S: Source, K: Sink, E: Sink, D: Disk, L: Dialler, N: Link, P: Pause>(
    alloc: Global,
    words: &[String],
    outside: Outside<S, K, E, World, D, L, N, P>,
    node: NodeId,
) -> Left<S, K, E, D, L, N, P>
    ensures { (end : End) × (usage : List ℕ) × (told : E) × (last : WorldView)
        × (result.status ≡ number_of (status_of end))
        × IsWrittenOrCut E.takes E.fails E.faults told result.outside.error (line_of end (file_told (asked (texts_of words.now)) end) usage)
        × Happened (record {
          asked = asked (texts_of words.now);
          input = at_source S.gives S.fails S.ended S.faults outside.input result.outside.input;
          output = at_sink K.takes K.fails K.faults outside.output result.outside.output;
          error = at_error E.takes E.fails E.faults outside.error told;
          stage = at_stage (λ (w : WorldView). w.world) outside.stage last;
          files = at_files D.view (disks_in outside.files) (disks_in result.outside.files);
          link = at_link L.story L.faults outside.dialler result.outside.dialler;
          token = at_source S.gives S.fails S.ended S.faults outside.token result.outside.token;
          node = at_node D.view N.story N.counts K.takes K.fails (disks_in outside.files) (disks_in result.outside.files) outside.link result.outside.link outside.output result.outside.output;
        }) end
        × (IsSome result.disks ↔ IsNode (length (ids last.world)) node)
        × IfSome result.disks (λ left. let n = node_in last.world node in
        Survives view_of (header_of n.control) node (disks left.0 left.1 left.2) n) }
{
    let Ended {
        status,
        mut outside,
    } = run(alloc, words, outside);
    let stage = outside.stage;
    outside.stage = World::empty(alloc);
    let disks = stage.into_disks(node);
    Left {
        status,
        disks,
        outside,
    }
}
