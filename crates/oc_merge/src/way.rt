//! The way in which the next line of a node is taken.

ghost use Rattle.std.specs.Prelude.{◌≡◌, true, Some, [], ◌∷◌, ◌++◌, OnOk, IfOk, length};
ghost use Rattle.oc_base.specs.Lawful.{IsNode};
ghost use Rattle.oc_model.specs.Lawful.{IsEvent};
ghost use Rattle.oc_model.specs.declared.input.Input.TheVariants.{Delivered};
ghost use Rattle.oc_model.specs.declared.message.Message.{Message as Sent};
ghost use Rattle.oc_model.specs.NextWorld.{next_world};
ghost use Rattle.oc_model.specs.World.{ids, is_up, node as node_in};
ghost use Rattle.oc_schedule.specs.Events.{event_of};
ghost use Rattle.oc_laws_world.specs.Merges.{start_events};
ghost use Rattle.oc_merge.specs.Heads.{IsNumberFor, IsPlayedBy, IsTaken, IsWay};
ghost use Rattle.oc_merge.specs.Recorded.{are_files, message_of};
ghost use Rattle.oc_merge.specs.Records.{IsLine, IsPlayed};

use crate::nodes::Nodes;
use crate::told::{Told, ToldLine};
use oc_base::{Bytes, Memory, NodeId};
use oc_model::{Act, Event, Input};
use oc_schedule::{EventList, KeptEvent};
use oc_wire::{WireFault, decode};
use std::alloc::Global;

/// The way in which the next line of a node is taken.
#[derive(Clone, Copy, Debug)]
pub(crate) enum Way {
    /// The node starts.
    Start,
    /// The message of this number is delivered.
    Number(u64),
    /// Any other input comes.
    Input,
}

/// Whether the files of a node are those that a start tells, if it tells any.
fn has_files<N: Nodes>(nodes: &N, node: NodeId, files: &Option<Bytes>) -> Result<bool, Memory>
    requires { IsNode (length (ids (N.world nodes.now))) node }
    ensures { IfOk result (λ same. same ≡ are_files N.digest files.now (node_in (N.world nodes.now) node)) }
{
    match files {
        None => Ok(true),
        Some(digits) => Ok(digits.items() == nodes.files(node)?.items()),
    }
}

/// The number of the message to a node with these bytes, if it was sent.
fn number_for<N: Nodes>(
    alloc: Global,
    nodes: &N,
    count: u32,
    node: NodeId,
    bytes: &[u8],
) -> Result<Option<u64>, Memory>
    requires count { length (ids (N.world nodes.now)) ≡ count }
    requires node { IsNode count node }
    ensures { IfOk result (λ found. IsNumberFor (N.world nodes.now).net node (message_of count bytes.now) found) }
{
    match decode(alloc, bytes, count) {
        Ok(message) => {
            if message.to == node {
                nodes.number(&message)
            } else {
                Ok(None)
            }
        }
        Err(WireFault::Memory) => Err(Memory),
        Err(_) => Ok(None),
    }
}

/// The way in which a line of a node can be taken next, if it can.
pub(crate) fn way_of<N: Nodes>(
    alloc: Global,
    nodes: &N,
    count: u32,
    line: &ToldLine,
    started: bool,
) -> Result<Option<Way>, Memory>
    requires count { length (ids (N.world nodes.now)) ≡ count }
    requires line { IsLine count line.now }
    requires started { started ≡ is_up (N.world nodes.now) line.now.node }
    ensures { IfOk result (λ way. IsWay N.digest count (N.world nodes.now) line.now.node line.now.told way) }
{
    match &line.told {
        Told::Started(files) => {
            if has_files(nodes, line.node, files)? {
                Ok(Some(Way::Start))
            } else {
                Ok(None)
            }
        }
        Told::Came(bytes) => {
            if !started {
                return Ok(None);
            }
            match number_for(alloc, nodes, count, line.node, bytes.items())? {
                Some(number) => Ok(Some(Way::Number(number))),
                None => Ok(None),
            }
        }
        Told::Took(_) => {
            if started {
                Ok(Some(Way::Input))
            } else {
                Ok(None)
            }
        }
    }
}

/// Plays an event, and appends it to the list.
fn play<N: Nodes>(
    alloc: Global,
    nodes: &mut N,
    events: &mut EventList,
    event: Event,
) -> Result<(), Memory>
    requires event { IsEvent (length (ids (N.world nodes.old))) event }
    requires played { IsPlayed event }
    ensures world { OnOk result (N.world nodes.new ≡ next_world (N.world nodes.old) event) }
    ensures events { OnOk result (events.new ≡ events.old ++ event ∷ []) }
{
    nodes.event(&event)?;
    events.push(kept(alloc, event)?)?;
    Ok(())
}

/// The form in which a list keeps an event.
fn kept(alloc: Global, event: Event) -> Result<KeptEvent, Memory>
    ensures { IfOk result (λ kept. event_of kept ≡ event) }
{
    match &event {
        Event::Up(node) => return Ok(KeptEvent::Up(*node)),
        Event::Crash(node) => return Ok(KeptEvent::Crash(*node)),
        Event::Do(Act::Deliver { number }) => return Ok(KeptEvent::Deliver { number: *number }),
        Event::Do(
            Act::At {
                node,
                input: Input::Tick(now),
            },
        ) => {
            return Ok(KeptEvent::Tick {
                node: *node,
                now: *now,
            });
        }
        _ => {}
    }
    Ok(KeptEvent::other(alloc, event)?)
}

/// Stops a node that is up, and starts it again.
fn restart<N: Nodes>(
    alloc: Global,
    nodes: &mut N,
    events: &mut EventList,
    node: NodeId,
) -> Result<(), Memory>
    requires node { IsNode (length (ids (N.world nodes.old))) node }
    ensures { OnOk result (IsPlayedBy (start_events node true) (N.world nodes.old) (N.world nodes.new) events.old events.new) }
{
    play(alloc, nodes, events, Event::Crash(node))?;
    play(alloc, nodes, events, Event::Up(node))
}

/// Starts a node, after a crash if it is up.
fn start<N: Nodes>(
    alloc: Global,
    nodes: &mut N,
    events: &mut EventList,
    node: NodeId,
    started: bool,
) -> Result<(), Memory>
    requires node { IsNode (length (ids (N.world nodes.old))) node }
    requires started { started ≡ is_up (N.world nodes.old) node }
    ensures { OnOk result (IsPlayedBy (start_events node (is_up (N.world nodes.old) node)) (N.world nodes.old) (N.world nodes.new) events.old events.new) }
{
    if started {
        restart(alloc, nodes, events, node)
    } else {
        play(alloc, nodes, events, Event::Up(node))
    }
}

/// A copy of an input that is no message.
fn copied(input: &Input) -> Result<Input, Memory>
    requires { (m : Sent) → input.now ≡ Delivered m → ⊥ }
    ensures { IfOk result (λ copy. copy ≡ input.now) }
{
    match input {
        Input::Tick(now) => Ok(Input::Tick(*now)),
        Input::CheckNow => Ok(Input::CheckNow),
        Input::Relocate(peer) => Ok(Input::Relocate(*peer)),
        Input::Unreachable(peer) => Ok(Input::Unreachable(*peer)),
        Input::Pull(peer) => Ok(Input::Pull(*peer)),
        Input::Measured { peer, rate, hops } => Ok(Input::Measured {
            peer: *peer,
            rate: *rate,
            hops: *hops,
        }),
        Input::Publish { group, bytes } => {
            let bytes = bytes.clone()?;
            let group = *group;
            Ok(Input::Publish { group, bytes })
        }
        Input::Seal { group } => Ok(Input::Seal { group: *group }),
        Input::Client { area, start, group } => Ok(Input::Client {
            area: *area,
            start: *start,
            group: *group,
        }),
        Input::Delivered(_) => unreachable!(),
    }
}

/// Takes a line of a node, and plays its events.
pub(crate) fn take<N: Nodes>(
    alloc: Global,
    nodes: &mut N,
    events: &mut EventList,
    line: &ToldLine,
    started: bool,
    way: Way,
) -> Result<(), Memory>
    requires line { IsLine (length (ids (N.world nodes.old))) line.now }
    requires started { started ≡ is_up (N.world nodes.old) line.now.node }
    requires way { IsWay N.digest (length (ids (N.world nodes.old))) (N.world nodes.old) line.now.node line.now.told (Some way) }
    ensures { OnOk result (IsTaken (length (ids (N.world nodes.old))) (N.world nodes.old) line.now (N.world nodes.new) events.old events.new) }
{
    match &line.told {
        Told::Started(_) => start(alloc, nodes, events, line.node, started),
        Told::Came(_) => match way {
            Way::Number(number) => {
                play(alloc, nodes, events, Event::Do(Act::Deliver { number }))
            }
            _ => unreachable!(),
        },
        Told::Took(input) => {
            let act = Act::At {
                node: line.node,
                input: copied(input)?,
            };
            play(alloc, nodes, events, Event::Do(act))
        }
    }
}
