//! The command `node`, which runs a node.
ghost use Rattle.std.specs.Prelude.{◌≡◌, ◌-◌, None, is_some, length, slice_index_or};
ghost use Rattle.oc_base.specs.Lawful.{IsNode};
ghost use Rattle.oc_config.specs.Reading.{IsConfig};
ghost use Rattle.oc_keep.specs.Files.{disks_in};
ghost use Rattle.oc_io.specs.Faults.{NoFall};
ghost use Rattle.oc_commands.specs.AtNode.{HappenedAtNode, IsMemberOf, IsPlacedOf, RunsService, UnlessRan, about, log_of};
ghost use Rattle.oc_commands.specs.Ends.{status_of_service};
ghost use Rattle.oc_commands.specs.Outside.{at_node, at_sink, at_source};
ghost use Rattle.oc_routes.specs.Sights.{about_of};
ghost use Rattle.oc_words.specs.Status.{number_of};

use crate::configuring::{ConfigEnd, Configured, read_configured};
use oc_base::NodeId;
use oc_config::Config;
use oc_io::{Disk, Sink, Source};
use oc_link::Link;
use oc_service::{About, Log, NodeEnd, Ran, Site, Task, run_node};
use oc_words::{LogWord, Service, VERSION};
use std::alloc::Global;

/// The end of `node`.
#[derive(Clone, Copy)]
pub enum ServiceEnd {
    /// There is no configuration.
    Config(ConfigEnd),
    /// No node of the configuration has this id, or it has no address there.
    Stranger,
    /// The node ran, and this is the end of its run.
    Ran(NodeEnd),
}

/// The end of `node`, and the files, link and output of its run.
#[derive(Drop)]
pub struct Served<D: Disk, L: Link, K: Sink> {
    pub end: ServiceEnd,
    pub site: Site<D, L, K>,
}

/// Runs a node of the configuration on the input for the given number of turns. The program started
/// at `started`, in seconds since 1970.
pub fn run_service<S: Source, D: Disk, L: Link, K: Sink>(
    alloc: Global,
    service: Service,
    started: u64,
    input: &mut S,
    site: Site<D, L, K>,
) -> Served<D, L, K>
    ensures happened { HappenedAtNode
        (at_source S.gives S.fails S.ended S.faults input.old input.new)
        (at_node D.view L.story L.counts K.takes K.fails (disks_in site.files) (disks_in result.site.files) site.link result.site.link site.sink result.site.sink)
        (at_sink K.takes K.fails K.faults site.sink result.site.sink) service result.end }
    ensures files { UnlessRan result.end (disks_in result.site.files ≡ disks_in site.files) }
    ensures link { UnlessRan result.end (result.site.link ≡ site.link) }
    ensures input_count { NoFall (S.faults input.old) (S.faults input.new) }
    ensures done_count { number_of (status_of_service result.end) ≡ 0 → NoFall (K.faults site.sink) (K.faults result.site.sink) }
{
    match read_configured(alloc, input) {
        Ok(configured) => serve_config(alloc, service, started, configured, site),
        Err(end) => Served {
            end: ServiceEnd::Config(end),
            site,
        },
    }
}

/// Runs a node of a configuration.
fn serve_config<D: Disk, L: Link, K: Sink>(
    alloc: Global,
    service: Service,
    started: u64,
    configured: Configured,
    site: Site<D, L, K>,
) -> Served<D, L, K>
    requires { IsConfig configured.config }
    ensures happened { RunsService
        (at_node D.view L.story L.counts K.takes K.fails (disks_in site.files) (disks_in result.site.files) site.link result.site.link site.sink result.site.sink)
        (at_sink K.takes K.fails K.faults site.sink result.site.sink) configured service result.end }
    ensures files { UnlessRan result.end (disks_in result.site.files ≡ disks_in site.files) }
    ensures link { UnlessRan result.end (result.site.link ≡ site.link) }
    ensures done_count { number_of (status_of_service result.end) ≡ 0 → NoFall (K.faults site.sink) (K.faults result.site.sink) }
{
    let Configured { config, text } = configured;
    match placed_of(&config, service.id) {
        Some(me) => {
            let task = Task {
                me,
                turns: service.turns,
                probes: service.probes,
                log: log_of(service.log),
                text,
                about: about(started),
            };
            let Ran { end, site } = run_node(alloc, config, task, site);
            Served {
                end: ServiceEnd::Ran(end),
                site,
            }
        }
        None => Served {
            end: ServiceEnd::Stranger,
            site,
        },
    }
}

/// The program, which started at this second since 1970.
fn about(started: u64) -> About
    ensures { about_of result ≡ about started }
{
    About {
        version: VERSION,
        started,
        refused: false,
    }
}

/// The form in which a node logs its inputs.
fn log_of(word: LogWord) -> Log
    ensures { result ≡ log_of word }
{
    match word {
        LogWord::Inputs => Log::Inputs,
        LogWord::Record => Log::Record,
        LogWord::Brief => Log::Brief,
    }
}

/// The node of a configuration with this id, if it has an address there.
fn placed_of(config: &Config, id: u64) -> Option<NodeId>
    requires { IsConfig config.now }
    ensures { IsPlacedOf config.now.addresses id result }
{
    match member_of(config, id) {
        Some(me) if has_address(config, me) => Some(me),
        _ => None,
    }
}

fn has_address(config: &Config, node: NodeId) -> bool
    requires { IsNode (length config.now.addresses) node }
    ensures { result ≡ is_some (slice_index_or config.now.addresses (node - 1) None) }
{
    config.addresses[node.index()].is_some()
}

/// The node of a configuration with this id, if there is one.
pub(crate) fn member_of(config: &Config, id: u64) -> Option<NodeId>
    requires { IsConfig config.now }
    ensures { IsMemberOf (length config.now.addresses) id result }
{
    if id < 1 {
        return None;
    }
    if (config.addresses.len() as u64) < id {
        return None;
    }
    Some(NodeId(id as u32))
}
