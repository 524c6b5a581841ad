//! What a node does with its configuration when it was read again.

ghost use Rattle.std.specs.Prelude.{◌≡◌, ◌≤◌, All, ℕ, true, IfErr, IfOk, IfSome, OnOk, Result, false, filter, length, option_map};
ghost use Rattle.std.specs.List.{AllByRecursion};
ghost use Rattle.oc_base.specs.declared.limits.TheConstants.{MAX_AREA, MAX_NODES as MOST_NODES};
ghost use Rattle.oc_config.specs.Changes.{Stays};
ghost use Rattle.oc_config.specs.Reading.{IsConfig};
ghost use Rattle.oc_updown.specs.MeasureLines.{IsMeasure};
ghost use Rattle.oc_deeds.specs.Areas.{areas_among};
ghost use Rattle.oc_deeds.specs.Lawful.{IsMadeFor};
ghost use Rattle.oc_deeds.specs.Records.{is_record};
ghost use Rattle.oc_deeds.specs.Rereading.{IsLawfulReread, MeansLook, MeansNew, MeansText, fitting_for, fresh, goes_by, is_fresh, is_last, is_placed, last_read, measured_by, probing_by, rotated_to, settles, takes_measures};
ghost use Rattle.oc_deeds.specs.Telling.{takes_ahead};
ghost use Rattle.oc_deeds.specs.declared.reread.Reread.TheVariants as rereads;

use crate::doer::Doer;
use crate::ends::TurnEnd;
use crate::reread::Reread;
use crate::told::takes_ahead;
use crate::unfit::Unfit;
use oc_base::{Bytes, MAX_SCHEDULE_BYTES, Memory, NodeId};
use oc_config::{
    Config, ConfigFault, Measure, Running, a_change_keeps_the_network, config_change, has_measure,
    read,
};
use oc_link::Look;
use oc_model::Input;
use oc_probe::{Probing, Rotation};
use std::alloc::Global;

/// What a look gives to one who read these bytes last: nothing where they are the same, or a configuration, or why it is none.
/// `Memory` where it runs out.
pub fn reread(alloc: Global, last: &Option<Bytes>, look: &Look) -> Result<Reread, Memory>
    ensures means { IfOk result (MeansLook last.now look.now) }
    ensures lawful { IfOk result IsLawfulReread }
{
    match look {
        Look::Nothing | Look::Failed => Ok(Reread::Nothing),
        Look::Text(bytes) => read_new(alloc, last, bytes.items()),
    }
}

/// Reads bytes that are not those of the last reading.
fn read_new(alloc: Global, last: &Option<Bytes>, bytes: &[u8]) -> Result<Reread, Memory>
    ensures means { IfOk result (MeansNew (is_last last.now bytes.now) bytes.now) }
    ensures lawful { IfOk result IsLawfulReread }
{
    if is_last(last, bytes) {
        return Ok(Reread::Nothing);
    }
    if bytes.len() > MAX_SCHEDULE_BYTES {
        return Ok(Reread::Unfit(Unfit::Long));
    }
    read_text(alloc, bytes)
}

/// Whether these are the bytes of the last reading.
fn is_last(last: &Option<Bytes>, bytes: &[u8]) -> bool
    ensures { result ≡ is_last last.now bytes.now }
{
    match last {
        Some(last) => last.items() == bytes,
        None => false,
    }
}

/// Reads bytes as a configuration.
fn read_text(alloc: Global, bytes: &[u8]) -> Result<Reread, Memory>
    ensures means { IfOk result (MeansText false bytes.now) }
    ensures lawful { IfOk result IsLawfulReread }
{
    match read(alloc, bytes) {
        Ok(config) => Ok(Reread::Config(config)),
        Err(ConfigFault::Memory) => Err(Memory),
        Err(fault) => Ok(Reread::Unfit(Unfit::Fault(fault))),
    }
}

/// The bytes of the last reading, after a look.
pub fn last_read(last: Option<Bytes>, look: Look) -> Option<Bytes>
    ensures { result ≡ last_read look last }
{
    match look {
        Look::Nothing => last,
        Look::Failed => None,
        Look::Text(bytes) => Some(bytes),
    }
}

/// Goes by the configuration that was read again, where that may be: its rules, its keys and its addresses are those of all that
/// comes later, and measures of the node that the old one had not are taken. Else it is told why not.
pub fn goes_by<W: Doer>(
    doer: &mut W,
    probing: &mut Option<Probing>,
    reread: Reread,
) -> Result<(), TurnEnd>
    requires serving { W.serving doer.old }
    requires reread { IsLawfulReread reread }
    requires probing { IfSome probing.old (IsMadeFor (W.running doer.old).node.control.nodes) }
    ensures did { OnOk result (W.does (goes_by reread) doer.old doer.new) }
    ensures probing { OnOk result (probing.new ≡ probing_by (W.setting doer.old) (W.running doer.old).config reread probing.old) }
    ensures made { OnOk result (IfSome probing.new (IsMadeFor (W.running doer.old).node.control.nodes)) }
    ensures breaks { IfErr result (λ end. W.stops end (goes_by reread) doer.old doer.new) }
{
    W::parts_go_on();
    W::parts_stop();
    match reread {
        Reread::Nothing => Ok(()),
        Reread::Unfit(why) => doer.keeps(why),
        Reread::Config(config) => goes_by_if(doer, probing, config),
    }
}

/// Goes by a configuration, where that may be.
fn goes_by_if<W: Doer>(
    doer: &mut W,
    probing: &mut Option<Probing>,
    config: Config,
) -> Result<(), TurnEnd>
    requires serving { W.serving doer.old }
    requires config { IsConfig config }
    requires probing { IfSome probing.old (IsMadeFor (W.running doer.old).node.control.nodes) }
    ensures did { OnOk result (W.does (goes_by (rereads.Config config)) doer.old doer.new) }
    ensures probing { OnOk result (probing.new ≡ probing_by (W.setting doer.old) (W.running doer.old).config (rereads.Config config) probing.old) }
    ensures made { OnOk result (IfSome probing.new (IsMadeFor (W.running doer.old).node.control.nodes)) }
    ensures breaks { IfErr result (λ end. W.stops end (goes_by (rereads.Config config)) doer.old doer.new) }
{
    W::parts_go_on();
    W::parts_stop();
    W::is_lawful();
    let me = doer.node().id();
    let recorded = doer.log().is_record();
    let running = Running { me, recorded };
    match fitting(running, doer.config(), config) {
        Ok(config) => changes(doer, probing, config),
        Err(why) => doer.keeps(why),
    }
}

/// The new configuration, or why the node goes on by the old one.
fn fitting(running: Running, old: &Config, new: Config) -> Result<Config, Unfit>
    requires { IsConfig new }
    ensures fitting { result ≡ fitting_for running old.now new }
    ensures lawful { IfOk result IsConfig }
    ensures stays { IfOk result (λ config. Stays running old.now config) }
{
    if !is_placed(running.me, &new) {
        return Err(Unfit::Stranger);
    }
    a_change_keeps_the_network();
    match config_change(running, old, new) {
        Ok(config) => Ok(config),
        Err(key) => Err(Unfit::Restart(key)),
    }
}

/// Whether a node has an address.
fn is_placed(me: NodeId, config: &Config) -> bool
    ensures { result ≡ is_placed me config.now }
{
    match config.addresses.get((me.0 as usize).saturating_sub(1)) {
        Some(address) => address.is_some(),
        None => false,
    }
}

/// Goes by a configuration from now on.
fn changes<W: Doer>(
    doer: &mut W,
    probing: &mut Option<Probing>,
    config: Config,
) -> Result<(), TurnEnd>
    requires serving { W.serving doer.old }
    requires config { IsConfig config }
    requires nodes { length config.addresses ≤ (W.running doer.old).node.control.nodes }
    requires areas { is_record (W.setting doer.old).log ≡ true → areas_among (W.running doer.old).node.control.nodes config.areas ≡ (W.running doer.old).node.control.areas }
    requires probing { IfSome probing.old (IsMadeFor (W.running doer.old).node.control.nodes) }
    ensures did { OnOk result (W.does (settles (Result.Ok config) (W.running doer.old).config) doer.old doer.new) }
    ensures probing { OnOk result (probing.new ≡ option_map (rotated_to (W.setting doer.old).me config) probing.old) }
    ensures made { OnOk result (IfSome probing.new (IsMadeFor (W.running doer.old).node.control.nodes)) }
    ensures breaks { IfErr result (λ end. W.stops end (settles (Result.Ok config) (W.running doer.old).config) doer.old doer.new) }
{
    W::parts_go_on();
    W::parts_stop();
    W::is_lawful();
    doer.may_end();
    let me = doer.node().id();
    let fresh = fresh(doer.alloc(), me, doer.config(), &config)?;
    let areas = areas_for(doer.alloc(), doer.node().nodes(), &config)?;
    reroute(doer.alloc(), probing, me, &config)?;
    doer.rereads(config, areas);
    takes_measures(doer, &fresh)
}

/// The node's own measures that the old configuration had not.
fn fresh(alloc: Global, me: NodeId, old: &Config, new: &Config) -> Result<Vec<Measure>, Memory>
    ensures { IfOk result (λ measures. measures.items ≡ fresh me old.now new.now) }
{
    fresh_of(alloc, me, &old.measures, &new.measures)
}

/// Those of these measures that are the node's own, and that the old ones are not.
fn fresh_of(
    alloc: Global,
    me: NodeId,
    old: &[Measure],
    new: &[Measure],
) -> Result<Vec<Measure>, Memory>
    ensures { IfOk result (λ measures. measures.items ≡ filter (is_fresh me old.now) new.now) }
{
    let mut measures = Vec::new(alloc);
    for measure in new {
        if is_fresh(me, old, *measure) {
            measures.push(*measure)?;
        }
    }
    Ok(measures)
}

fn is_fresh(me: NodeId, old: &[Measure], measure: Measure) -> bool
    ensures { result ≡ is_fresh me old.now measure }
{
    measure.from == me && !has_measure(measure, old)
}

/// The areas of a configuration, for this many nodes.
pub fn areas_for(alloc: Global, nodes: u32, config: &Config) -> Result<Vec<u8>, Memory>
    requires { length config.now.areas ≤ nodes }
    ensures same { IfOk result (λ made. made.items ≡ areas_among nodes config.now.areas) }
    ensures bytes { IfOk result (λ made. AllByRecursion (λ a. a ≤ MAX_AREA) made.items) }
    ensures many { IfOk result (λ made. length made.items ≡ nodes) }
{
    areas_among(alloc, nodes, &config.areas)
}

/// These areas for this many nodes, copied one by one: each that is read is within its range. An id without an area has 0.
fn areas_among(alloc: Global, nodes: u32, areas: &[u8]) -> Result<Vec<u8>, Memory>
    requires { length areas.now ≤ nodes }
    ensures same { IfOk result (λ made. made.items ≡ areas_among nodes areas.now) }
    ensures bytes { IfOk result (λ made. AllByRecursion (λ a. a ≤ MAX_AREA) made.items) }
    ensures many { IfOk result (λ made. length made.items ≡ nodes) }
{
    let mut made = Vec::with_capacity(alloc, nodes as usize)?;
    for area in areas {
        made.push(*area)?;
    }
    let others = nodes as usize - areas.len();
    for _ in 0..others {
        made.push(0)?;
    }
    Ok(made)
}

/// Probes the peers that have an address by now, from the first one on.
fn reroute(
    alloc: Global,
    probing: &mut Option<Probing>,
    me: NodeId,
    config: &Config,
) -> Result<(), Memory>
    requires config { length config.now.addresses ≤ MOST_NODES }
    ensures rerouted { OnOk result (probing.new ≡ option_map (rotated_to me config.now) probing.old) }
    ensures made { OnOk result ((nodes : ℕ) → length config.now.addresses ≤ nodes → IfSome probing.old (IsMadeFor nodes) → IfSome probing.new (IsMadeFor nodes)) }
{
    if let Some(probing) = probing {
        probing.rotation = Rotation::new(alloc, me, &config.addresses)?;
    }
    Ok(())
}

/// Takes each of these measures.
fn takes_measures<W: Doer>(doer: &mut W, measures: &[Measure]) -> Result<(), TurnEnd>
    requires serving { W.serving doer.old }
    requires lawful { All (IsMeasure (W.running doer.old).node.control.nodes) measures.now }
    ensures did { OnOk result (W.does (takes_measures measures.now) doer.old doer.new) }
    ensures breaks { IfErr result (λ end. W.stops end (takes_measures measures.now) doer.old doer.new) }
{
    W::parts_go_on();
    W::parts_stop();
    'measures: for place in 0..measures.len() {
        let measure = measures[place];
        takes_measure(doer, measure)?;
    }
    Ok(())
}

/// Takes a measure as an input.
fn takes_measure<W: Doer>(doer: &mut W, measure: Measure) -> Result<(), TurnEnd>
    requires serving { W.serving doer.old }
    requires lawful { IsMeasure (W.running doer.old).node.control.nodes measure }
    ensures did { OnOk result (W.does (takes_ahead (measured_by measure)) doer.old doer.new) }
    ensures breaks { IfErr result (λ end. W.stops end (takes_ahead (measured_by measure)) doer.old doer.new) }
{
    takes_ahead(
        doer,
        Input::Measured {
            peer: measure.peer,
            rate: measure.rate,
            hops: measure.hops,
        },
    )
}
