//! Schedules that follow from a seed.

ghost use Rattle.std.specs.Prelude.{◌≡◌, ◌+◌, ◌-◌, ◌/◌, ◌%◌, ◌^◌, ◌≤◌, ◌<◌, ◌++◌, [], ◌∷◌, OnOk, IfOk, map, codes};
ghost use Rattle.std.specs.List.{range_with_len};
ghost use Rattle.oc_base.specs.declared.limits.TheConstants.{MAX_NODES};
ghost use Rattle.oc_model.specs.declared.event.Act.TheVariants.{At};
ghost use Rattle.oc_model.specs.declared.event.Event.TheVariants.{Up};
ghost use Rattle.oc_model.specs.declared.input.Input.TheVariants.{Publish};
ghost use Rattle.oc_schedule.specs.declared.generating.TheConstants.{MAX_GENERATED_EVENTS};
ghost use Rattle.oc_schedule.specs.Events.{event_of};
ghost use Rattle.oc_schedule.specs.Generator.{draw_at, draws_of, events_from, generated, made, next_state, state_after};

use crate::kept_event::KeptEvent;
use crate::{EventList, Schedule};
use oc_base::{Bytes, GroupName, Memory, NodeId, USUAL_CHUNK_BYTES};
use oc_model::{Act, Event, Header, Input, Sizes};
use std::alloc::Global;

/// The greatest number of events of a generated schedule.
pub const MAX_GENERATED_EVENTS: u32 = 99_999;

/// The greatest number of chain members of a generated schedule.
const CHAIN: u32 = 3;

/// The schedule of a seed: all nodes start, and then come ticks, deliveries, publishes of a byte,
/// crashes and starts in the order that a linear congruential generator draws. `events` counts the
/// starts too.
pub fn generate(alloc: Global, seed: u64, nodes: u32, events: u32) -> Result<Schedule, Memory>
    requires some { 1 ≤ nodes }
    requires few { nodes ≤ MAX_NODES }
    requires all_start { nodes ≤ events }
    requires not_more { events ≤ MAX_GENERATED_EVENTS }
    ensures exact { IfOk result (λ schedule. schedule ≡ generated seed nodes (events - nodes)) }
{
    let mut made = EventList::new(alloc);
    put_starts(&mut made, nodes)?;
    put_drawn(alloc, &mut made, Draws { state: seed }, nodes, events)?;
    Ok(Schedule {
        header: Header {
            sizes: Sizes {
                nodes,
                chain: CHAIN.min(nodes),
                chunk: USUAL_CHUNK_BYTES,
            },
            areas: vec![in alloc; 0; nodes as usize]?,
        },
        events: made,
    })
}

/// Puts the starts of all nodes.
fn put_starts(events: &mut EventList, nodes: u32) -> Result<(), Memory>
    requires { nodes ≤ MAX_NODES }
    ensures { OnOk result (events.new ≡ events.old ++ map (λ x. Up x) (range_with_len 1 nodes)) }
{
    for node in 1..nodes + 1 {
        events.push(KeptEvent::Up(NodeId(node)))?;
    }
    Ok(())
}

/// Puts the drawn events, up to this number.
fn put_drawn(
    alloc: Global,
    events: &mut EventList,
    draws: Draws,
    nodes: u32,
    last: u32,
) -> Result<(), Memory>
    requires some { 1 ≤ nodes }
    requires few { nodes ≤ MAX_NODES }
    requires all_start { nodes ≤ last }
    requires not_more { last ≤ MAX_GENERATED_EVENTS }
    ensures { OnOk result (events.new ≡ events.old ++ events_from draws.state nodes (nodes + 1) 0 (last - nodes)) }
{
    let mut draws = draws;
    for number in nodes + 1..last + 1 {
        let event = draws.event(alloc, nodes, number)?;
        events.push(event)?;
    }
    Ok(())
}

/// A linear congruential generator of 64 bits.
#[derive(Drop)]
struct Draws {
    state: u64,
}

impl Draws {
    /// The upper 31 bits of the next state.
    fn next(&mut self) -> u64
        ensures state { self.new.state ≡ next_state self.old.state }
        ensures drawn { result ≡ next_state self.old.state / 2 ^ 33 }
    {
        self.state = self
            .state
            .wrapping_mul(6_364_136_223_846_793_005)
            .wrapping_add(1_442_695_040_888_963_407);
        self.state >> 33
    }

    /// The next event, which has this number.
    fn event(&mut self, alloc: Global, nodes: u32, number: u32) -> Result<KeptEvent, Memory>
        requires nodes { 1 ≤ nodes }
        requires number { 1 ≤ number }
        ensures event { IfOk result (λ event. event_of event ≡ made number (draw_at self.old.state 0 % 16)
            (1 + draw_at self.old.state 1 % nodes) (draw_at self.old.state 2)) }
        ensures state { OnOk result (self.new.state ≡ state_after self.old.state (draws_of (draw_at self.old.state 0 % 16))) }
    {
        let kind = self.next() % 16;
        let node = NodeId((1 + self.next() % u64::from(nodes)) as u32);
        match kind {
            0..=5 => Ok(KeptEvent::Tick {
                node,
                now: u64::from(number),
            }),
            6..=12 => Ok(KeptEvent::Deliver {
                number: 1 + self.next() % u64::from(number),
            }),
            13 => {
                let act = publish(alloc, (self.next() % 256) as u8)?;
                Ok(KeptEvent::other(alloc, Event::Do(act))?)
            }
            14 => Ok(KeptEvent::Crash(node)),
            _ => Ok(KeptEvent::Up(node)),
        }
    }
}

/// A publish of one byte in the group `/g`.
fn publish(alloc: Global, byte: u8) -> Result<Act, Memory>
    ensures { IfOk result (λ act. act ≡ At 1 (Publish (codes "/g") (byte ∷ []))) }
{
    let Ok(group) = GroupName::parse(b"/g") else {
        unreachable!()
    };
    Ok(Act::At {
        node: NodeId(1),
        input: Input::Publish {
            group,
            bytes: Bytes::of(vec![in alloc; byte; 1]?),
        },
    })
}
