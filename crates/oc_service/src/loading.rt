//! A node after its load, with no message to send and no request under way.

ghost use Rattle.std.specs.Prelude.{◌≡◌, ◌≤◌, IfErr, IfOk, length};
ghost use Rattle.oc_base.specs.Lawful.{IsNode};
ghost use Rattle.oc_base.specs.declared.limits.TheConstants.{MAX_NODES};
ghost use Rattle.oc_config.specs.Reading.{IsConfig};
ghost use Rattle.oc_deeds.specs.Records.{is_record};
ghost use Rattle.oc_service.specs.Loading.{IsEquipped, IsLoaded, IsUnloaded};
ghost use Rattle.oc_service.specs.OnSite.{header_by};

use crate::probing::first_probing;
use crate::running::Task;
use crate::site::Site;
use oc_base::{MAX_NODES as NODES_LIMIT, Memory};
use oc_config::Config;
use oc_deeds::rereading::areas_for;
use oc_deeds::{Dials, Log, Outbox, Pace, Works, most_interval};
use oc_http::HeadReader;
use oc_io::{Disk, Sink};
use oc_keep::{KeepLoad, Kept, Seat};
use oc_link::Link;
use oc_model::{Header, Sizes};
use oc_probe::Probing;
use oc_routes::Tally;
use oc_server::{Server, Turns};
use std::alloc::Global;

/// The state of a running node besides its files. Its memory is taken before the files are read.
#[derive(Drop)]
struct Equipment {
    areas: Vec<u8>,
    outbox: Outbox,
    tally: Tally,
    heads: HeadReader,
    probing: Option<Probing>,
}

/// Loads the node of a task. If the load fails, its site is given back.
pub(crate) fn load<D: Disk, L: Link, K: Sink>(
    alloc: Global,
    config: Config,
    task: Task,
    site: Site<D, L, K>,
) -> Result<Turns<D, L, K>, (Site<D, L, K>, KeepLoad)>
    requires config { IsConfig config }
    requires me { IsNode (length config.addresses) task.me }
    ensures loaded { IfOk result (IsLoaded D.view config task site) }
    ensures unloaded { IfErr result (λ refused. IsUnloaded D.view config task site refused.0 refused.1) }
{
    let Equipment {
        areas,
        outbox,
        tally,
        heads,
        probing,
    } = match equip(alloc, &config, &task) {
        Ok(equipment) => equipment,
        Err(Memory) => return Err((site, KeepLoad::Memory)),
    };
    let Site { files, link, sink } = site;
    let Task {
        me,
        turns: _,
        probes,
        log,
        text,
        about,
    } = task;
    let ids = nodes_of(&config);
    let seat = Seat {
        id: me,
        header: Header {
            sizes: Sizes {
                nodes: room_for(&config, log),
                chain: config.chain,
                chunk: config.chunk(),
            },
            areas,
        },
    };
    match Kept::load_among(alloc, files, seat, ids) {
        Ok(kept) => Ok(Turns {
            server: Server {
                alloc,
                kept,
                outbox,
                works: Works::new(alloc),
                dials: Dials::new(alloc),
                config,
                about,
                tally,
                log,
                link,
                sink,
                heads,
            },
            pace: Pace::new(log.is_record(), most_interval(probes, me)),
            probing,
            reading: Some(text),
        }),
        Err((files, error)) => Err((Site { files, link, sink }, error)),
    }
}

/// The state of the node besides its files: the areas of all nodes, no messages to send, nothing
/// counted, and the state of its probing.
fn equip(alloc: Global, config: &Config, task: &Task) -> Result<Equipment, Memory>
    requires config { IsConfig config.now }
    requires me { IsNode (length config.now.addresses) task.now.me }
    ensures { IfOk result (λ equipment. IsEquipped config.now (is_record task.now.log) task.now.probes task.now.me equipment.areas.items equipment.outbox equipment.tally equipment.probing) }
{
    let nodes = room_for(config, task.log);
    Ok(Equipment {
        areas: areas_for(alloc, nodes, config)?,
        outbox: Outbox::new(alloc)?,
        tally: Tally::new(alloc, nodes)?,
        heads: HeadReader::new(alloc)?,
        probing: first_probing(alloc, task.me, nodes, &config.addresses, task.probes)?,
    })
}

/// The number of nodes that a node is loaded for: those of its configuration, if it writes a record, and else all that there
/// can be, so that more may come while it runs.
fn room_for(config: &Config, log: Log) -> u32
    requires { length config.now.addresses ≤ MAX_NODES }
    ensures room { result ≡ (header_by (is_record log) config.now).nodes }
    ensures few { result ≤ MAX_NODES }
    ensures within { length config.now.addresses ≤ result }
{
    if log.is_record() {
        nodes_of(config)
    } else {
        NODES_LIMIT
    }
}

/// The number of nodes in a configuration.
fn nodes_of(config: &Config) -> u32
    requires { length config.now.addresses ≤ MAX_NODES }
    ensures { result ≡ length config.now.addresses }
{
    config.addresses.len() as u32
}
