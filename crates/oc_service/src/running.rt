//! A node from its files to the end of its turns.

ghost use Rattle.std.specs.Prelude.{◌≡◌, ◌⊎◌, All, IfErr, OnOk, false, length};
ghost use Rattle.oc_base.specs.Lawful.{IsNode};
ghost use Rattle.oc_config.specs.Reading.{IsConfig};
ghost use Rattle.oc_io.specs.Faults.{NoFall, Rose};
ghost use Rattle.oc_keep.specs.Files.{AreHonest, OneRose, disks_in};
ghost use Rattle.oc_keep.specs.KeptView.{IsFullAt, IsFullOn, IsHonest, NodeSurvives, disks_of, node_of};
ghost use Rattle.oc_keep.specs.Promises.{HoldFiles};
ghost use Rattle.oc_model.specs.declared.input.Input.{Input};
ghost use Rattle.oc_routes.specs.Responses.{address_of};
ghost use Rattle.oc_server.specs.Lawful.{IsReady};
ghost use Rattle.oc_server.specs.Scenes.{IsServing};
ghost use Rattle.oc_service.specs.OnSite.{EndsUnfailed, NodeEnds, at_run, setting_of};
ghost use Rattle.oc_service.specs.Running.{IsDeaf, Listens, RunEnds};
ghost use Rattle.oc_updown.specs.MeasureLines.{IsMeasure};

use crate::loading::load;
use crate::measuring::begin;
use crate::site::Site;
use oc_base::{Bytes, NodeId};
use oc_config::Config;
use oc_deeds::{Log, TurnEnd};
use oc_io::{Disk, Sink};
use oc_keep::{Files, KeepLoad};
use oc_link::Link;
use oc_routes::{About, address_of};
use oc_server::{Server, Turns, turns_are_in_order};
use std::alloc::Global;

/// The task of a node.
#[derive(Drop)]
pub struct Task {
    /// The number of the node.
    pub me: NodeId,
    /// The number of turns to make.
    pub turns: u64,
    /// Whether the node probes its peers.
    pub probes: bool,
    /// The form in which the node logs its inputs.
    pub log: Log,
    /// The bytes that its configuration was read from.
    pub text: Bytes,
    /// What is told of the program.
    pub about: About,
}

/// The end of a node's run.
#[derive(Clone, Copy, Debug, PartialEq, Eq)]
pub enum NodeEnd {
    /// The node was not loaded from its files.
    Load(KeepLoad),
    /// The node was loaded, and its turns ended in this way: `Served` if all were made.
    Turned(TurnEnd),
}

/// The end of a node's run, and its site.
#[derive(Drop)]
pub struct Ran<D: Disk, L: Link, K: Sink> {
    pub end: NodeEnd,
    pub site: Site<D, L, K>,
}

/// Runs a node of a configuration: loads it from its files, has its link listen, reports its
/// position in the tree if the log asks for that, takes the measures, and makes its turns.
pub fn run_node<D: Disk, L: Link, K: Sink>(
    alloc: Global,
    config: Config,
    task: Task,
    site: Site<D, L, K>,
) -> Ran<D, L, K>
    requires config { IsConfig config }
    requires me { IsNode (length config.addresses) task.me }

    // The deeds of the node: with all its turns made, exactly those of the machine. If the run
    // ended early: a prefix of these, and the reason. If the node was not loaded: the file with the
    // fault. In each case: the bytes given to its connections, and at every moment the files after
    // every crash and the bytes written.
    ensures ends { NodeEnds
        (at_run D.view L.story L.counts K.takes K.fails config task (disks_in site.files) (disks_in result.site.files) site.link result.site.link site.sink result.site.sink)
        (λ text. K.takes site.sink text result.site.sink)
        (λ text. K.fails site.sink text result.site.sink × Rose (K.faults site.sink) (K.faults result.site.sink))
        (setting_of task) result.end }

    // All turns are made, unless memory runs out or a file is full, with the files of a node on honest
    // disks, if neither a disk nor the output nor the asking of the link fails.
    ensures unfailed { AreHonest D.view (disks_in site.files)
        → HoldFiles D.view (length config.addresses) (disks_in site.files)
        → (OneRose D.view (disks_in site.files) (disks_in result.site.files) → ⊥)
        → (Rose (L.counts site.link).listening (L.counts result.site.link).listening → ⊥)
        → (Rose (K.faults site.sink) (K.faults result.site.sink) → ⊥)
        → EndsUnfailed result.end }

    // If all turns are made, the output's count of faults does not fall.
    ensures count { result.end ≡ NodeEnd.Turned TurnEnd.Served → NoFall (K.faults site.sink) (K.faults result.site.sink) }
{
    let most = task.turns;
    match load(alloc, config, task, site) {
        Ok(mut turns) => {
            let end = run(&mut turns, most);
            Ran {
                end: NodeEnd::Turned(end),
                site: leave(turns),
            }
        }
        Err((site, error)) => Ran {
            end: NodeEnd::Load(error),
            site,
        },
    }
}

/// Begins the run, and makes `most` turns; a law states the bytes that connections are given.
fn run<D: Disk, L: Link, K: Sink>(turns: &mut Turns<D, L, K>, most: u64) -> TurnEnd
    requires ready { IsReady turns.old }
    requires measures { All (IsMeasure turns.old.server.kept.node.control.nodes) turns.old.server.config.measures }
    ensures { RunEnds D.view K.takes K.fails K.faults L.story L.counts most result turns.old turns.new }
{
    turns_are_in_order::<D, L, K>();
    turns.server.kept.recovers();
    match listen(&mut turns.server) {
        Ok(()) => {}
        Err(end) => return end,
    }
    match begin(&mut turns.server) {
        Ok(()) => turns.serve(Some(most)),
        Err(end) => end,
    }
}

/// Has the link listen at the node's own address, which may differ from the one that others use.
fn listen<D: Disk, L: Link, K: Sink>(server: &mut Server<D, L, K>) -> Result<(), TurnEnd>
    ensures listens { OnOk result (Listens L.story L.counts server.old server.new) }
    ensures deaf { IfErr result (λ end. IsDeaf L.story L.counts end server.old server.new) }
{
    server.kept.recovers();
    let me = server.kept.node().id();
    let address = listen_of(&server.config, me);
    match server.link.listen(address) {
        Ok(()) => Ok(()),
        Err(_) => Err(TurnEnd::Link),
    }
}

/// The address at which a node listens: its `listen` in the configuration, or its address if there
/// is none.
fn listen_of(config: &Config, node: NodeId) -> &str
    ensures { result.now ≡ address_of config.now.listens node }
{
    address_of(&config.listens, node)
}

/// The site of the node, given back.
fn leave<D: Disk, L: Link, K: Sink>(turns: Turns<D, L, K>) -> Site<D, L, K>
    ensures files { disks_in result.files ≡ disks_of turns.server.kept }
    ensures link { result.link ≡ turns.server.link }
    ensures sink { result.sink ≡ turns.server.sink }

    // As long as no disk failed, every crash leaves the node, and files that are full for the same
    // inputs.
    ensures survives { turns.server.kept.closed ≡ false → IsHonest D.view turns.server.kept
        → NodeSurvives D.view turns.server.kept (node_of turns.server.kept) }
    ensures full { turns.server.kept.closed ≡ false → IsHonest D.view turns.server.kept
        → (i : Input) → IsFullAt turns.server.kept i → IsFullOn D.view (disks_of turns.server.kept) (node_of turns.server.kept) i }
{
    turns.server.kept.recovers();
    let Turns {
        server,
        pace: _,
        probing,
        reading,
    } = turns;
    drop(probing);
    drop(reading);
    let Server {
        alloc: _,
        kept,
        outbox,
        works,
        dials,
        config,
        about: _,
        tally,
        log: _,
        link,
        sink,
        heads,
    } = server;
    drop(outbox);
    drop(works);
    drop(dials);
    drop(config);
    drop(tally);
    drop(heads);
    let (control, alternate, content) = kept.into_disks();
    Site {
        files: Files {
            control,
            alternate,
            content,
        },
        link,
        sink,
    }
}
