//! The news of an event, read from the bytes that the link lends.

ghost use Rattle.std.specs.Prelude.{◌≡◌, ◌≤◌, IfErr, IfOk, IfSome, None, length, option_map};
ghost use Rattle.oc_link.specs.declared.event.LinkEvent.TheVariants as events;
ghost use Rattle.oc_policy.specs.declared.deciding.TheConstants.{MAX_RULES};
ghost use Rattle.oc_routes.specs.Verdicts.{terms_of};
ghost use Rattle.oc_deeds.specs.Lawful.{IsLawfulCame};
ghost use Rattle.oc_server.specs.Runs.{reads_by};
ghost use Rattle.oc_server.specs.Scenes.{Breaks, IsServing, IsSet};
ghost use Rattle.oc_deeds.specs.Under.{Idle};
ghost use Rattle.oc_deeds.specs.Lawful.{IsLawfulErrand};
ghost use Rattle.oc_deeds.specs.Rereading.{IsLawfulReread, MeansLook};
ghost use Rattle.oc_deeds.specs.Turns.{Means, MeansBack};

use crate::asking::Heard;
use crate::server::Server;
use oc_base::{Bytes, Memory};
use oc_config::Config;
use oc_deeds::reading::{Hearer, comes_back};
use oc_deeds::rereading::reread;
use oc_deeds::{Came, Errand, Reread, TurnEnd};
use oc_http::HeadReader;
use oc_io::{Disk, Sink};
use oc_keep::{Kept, Node};
use oc_link::{Arrival, Coming, Link, LinkEvent, Look};
use oc_routes::{Terms, judge};
use std::alloc::Global;

impl<D: Disk, L: Link, K: Sink> Server<D, L, K> {
    /// The news of the event that the link told last; to be asked for before any other call of the link.
    pub fn understands(&mut self, happened: Heard) -> Result<Came, TurnEnd>
        requires serving { IsServing self.old }
        requires errand { IfSome happened.errand (IsLawfulErrand self.old.kept.node.control.nodes) }
        ensures means { IfOk result (Means (reads_by self.old) (L.lends self.old.link) happened.errand happened.event) }
        ensures lawful { IfOk result (IsLawfulCame self.old.kept.node.control.nodes self.old.kept.node.control.me) }
        ensures same { self.new ≡ record self.old { heads = self.new.heads } }
        ensures breaks { IfErr result (λ end. (end ≡ TurnEnd.Memory) × Breaks D.view K.takes K.fails K.faults L.story L.counts end Idle self.old self.new) }
    {
        self.kept.recovers();
        Ok(self.meaning_of(happened)?)
    }

    /// What a look at the file of the configuration gives to one who read these bytes last.
    pub fn rereads_look(&self, last: &Option<Bytes>, look: &Look) -> Result<Reread, TurnEnd>
        requires { IsServing self.now }
        ensures means { IfOk result (MeansLook last.now look.now) }
        ensures lawful { IfOk result IsLawfulReread }
        ensures breaks { IfErr result (λ end. (end ≡ TurnEnd.Memory) × Breaks D.view K.takes K.fails K.faults L.story L.counts end Idle self.now self.now) }
    {
        self.kept.recovers();
        Ok(reread(self.alloc, last, look)?)
    }

    /// What an event is, by what the link lends.
    fn meaning_of(&mut self, happened: Heard) -> Result<Came, Memory>
        requires set { IsSet self.old }
        requires errand { IfSome happened.errand (IsLawfulErrand self.old.kept.node.control.nodes) }
        ensures means { IfOk result (Means (reads_by self.old) (L.lends self.old.link) happened.errand happened.event) }
        ensures lawful { IfOk result (IsLawfulCame self.old.kept.node.control.nodes self.old.kept.node.control.me) }
        ensures same { self.new ≡ record self.old { heads = self.new.heads } }
    {
        match &happened.event {
            LinkEvent::Request(arrival) => self.hears(*arrival),
            LinkEvent::Room(connection) => Ok(Came::Room(*connection)),
            LinkEvent::Gone(connection, loss) => Ok(Came::Gone(*connection, *loss)),
            LinkEvent::Reply(_, coming) => self.hears_back(happened.errand, *coming),
            LinkEvent::Quiet => Ok(Came::Nothing),
        }
    }

    /// The verdict on the bytes of a request that came so far.
    fn hears(&mut self, arrival: Arrival) -> Result<Came, Memory>
        requires { IsSet self.old }
        ensures means { IfOk result (Means (reads_by self.old) (L.lends self.old.link) None (events.Request arrival)) }
        ensures lawful { IfOk result (IsLawfulCame self.old.kept.node.control.nodes self.old.kept.node.control.me) }
        ensures same { self.new ≡ record self.old { heads = self.new.heads } }
    {
        judged(
            self.alloc,
            &self.kept,
            &self.config,
            &mut self.heads,
            arrival,
            self.link.lent(),
        )
    }

    /// The news of a dial with this errand; `Nothing` where there was no errand.
    fn hears_back(&mut self, errand: Option<Errand>, coming: Coming) -> Result<Came, Memory>
        requires set { IsSet self.old }
        requires errand { IfSome errand (IsLawfulErrand self.old.kept.node.control.nodes) }
        ensures means { IfOk result (MeansBack (reads_by self.old) (L.lends self.old.link) errand coming) }
        ensures lawful { IfOk result (IsLawfulCame self.old.kept.node.control.nodes self.old.kept.node.control.me) }
        ensures same { self.new ≡ record self.old { heads = self.new.heads } }
    {
        let Some(errand) = errand else {
            return Ok(Came::Nothing);
        };
        let hearer = hearer_of(&self.kept, &self.config);
        comes_back(
            self.alloc,
            &mut self.heads,
            &hearer,
            errand,
            self.link.lent(),
            coming,
        )
    }
}

/// The verdict of a node with this configuration on the bytes of a request that came so far.
fn judged<D: Disk>(
    alloc: Global,
    kept: &Kept<D>,
    config: &Config,
    heads: &mut HeadReader,
    arrival: Arrival,
    bytes: &[u8],
) -> Result<Came, Memory>
    requires rules { length config.now.rules ≤ MAX_RULES }
    requires places { length config.now.addresses ≤ kept.now.node.control.nodes }
    ensures means { IfOk result (Means (terms_of kept.now.node.control.me (length config.now.addresses) config.now.rules config.now.keys) bytes.now None (events.Request arrival)) }
    ensures lawful { IfOk result (IsLawfulCame kept.now.node.control.nodes kept.now.node.control.me) }
{
    let connection = arrival.connection;
    let terms = Terms {
        me: kept.node().id(),
        nodes: ids_of(kept.node(), config),
        rules: &config.rules,
        keys: config.keys.as_ref(),
    };
    let verdict = judge(alloc, heads, &terms, arrival, bytes)?;
    Ok(Came::Request {
        connection,
        count: bytes.len() as u64,
        verdict,
    })
}

/// A node with this configuration, as one that hears back.
fn hearer_of<'a, D: Disk>(kept: &Kept<D>, config: &'a Config) -> Hearer<'a>
    requires { length config.now.addresses ≤ kept.now.node.control.nodes }
    ensures me { result.me ≡ kept.now.node.control.me }
    ensures nodes { result.nodes ≡ kept.now.node.control.nodes }
    ensures ids { result.ids ≡ length config.now.addresses }
    ensures keys { option_map (λ k. k.now) result.keys ≡ config.now.keys }
{
    Hearer {
        me: kept.node().id(),
        nodes: kept.node().nodes(),
        ids: ids_of(kept.node(), config),
        keys: config.keys.as_ref(),
    }
}

/// The greatest id that a node of this configuration can have.
pub(crate) fn ids_of(node: &Node, config: &Config) -> u32
    requires { length config.now.addresses ≤ node.now.control.nodes }
    ensures { result ≡ length config.now.addresses }
{
    // The contract of this call says that the number of nodes has 32 bits.
    let _nodes = node.nodes();
    config.addresses.len() as u32
}
