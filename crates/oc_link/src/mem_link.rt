ghost use Rattle.std.specs.Prelude.{true, false, ◌≡◌, ◌≤◌, length, ℕ, Option, None, Some, Ok, [], ◌∷◌, ◌++◌, drop, IfSome, slice_get, OnErr, OnOk, IsTrue};
ghost use Rattle.std.specs.Option.{option_copied, option_map};
ghost use Rattle.oc_link.specs.declared.call.Call.TheVariants as acts;
ghost use Rattle.oc_link.specs.Counts.{Counted, CountsListening, no_counts};
ghost use Rattle.oc_link.specs.Plays as plays;
ghost use Rattle.oc_link.specs.Plays.{PlaysAs, fails_at, time_after};
ghost use Rattle.oc_link.specs.Stands as stands;
ghost use Rattle.oc_link.specs.Told.{Adds, GivesEvent, IfTold, Lends, NextGives, Told};

use crate::call::{Call, Ending};
use crate::counts::LinkCounts;
use crate::event::{Arrival, LinkEvent};
use crate::history::{held, may, standing_of};
use crate::ids::{ConnectionId, DialId};
use crate::link::Link;
use crate::look::Look;
use crate::script::{Happening, Step};
use oc_base::{Bytes, Text};
use oc_io::Failed;
use std::alloc::Global;
use std::marker::Model;

/// A link in memory that plays a script, with a clock that the script moves. It tells its story unless memory runs
/// out.
#[derive(Drop)]
pub struct MemLink {
    alloc: Global,
    script: Vec<Step>,
    /// The number of steps that were played.
    at: usize,
    /// The time of the clock, in milliseconds.
    time: u64,
    calls: Option<Vec<Call>>,
    lent: Vec<u8>,
    counts: LinkCounts,
}

impl Model for MemLink {
    ghost use Rattle.std.specs.Prelude.{◌≤◌, drop, vec_len};
    ghost use Rattle.std.specs.Option.{option_map};
    ghost use Rattle.oc_link.specs.MemLinkView.{MemLinkView};

    ghost Value = { MemLinkView };

    ghost view = { λ l. record {
      script = drop l.at l.script.items;
      time = l.time;
      story = option_map (λ v. v.items) l.calls;
      lends = l.lent.items;
      counts = l.counts;
    } };

    ghost invariant = { λ l. l.at ≤ vec_len l.script };
}

impl MemLink {
    /// A link that plays this script, a step at each `next`, and is quiet after it. A look plays the next step, too,
    /// if that is a look. Its clock begins at 0.
    pub fn new(alloc: Global, script: Vec<Step>) -> MemLink
        ensures { result ≡ record { script = script.items; time = 0; story = Some []; lends = []; counts = no_counts } }
    {
        MemLink {
            alloc,
            script,
            at: 0,
            time: 0,
            calls: Some(Vec::new(alloc)),
            lent: Vec::new(alloc),
            counts: LinkCounts::none(),
        }
    }

    /// The calls so far, unless memory ran out.
    pub fn calls(&self) -> Option<&[Call]>
        ensures { option_copied result ≡ self.now.story }
    {
        match &self.calls {
            Some(calls) => Some(calls.as_slice()),
            None => None,
        }
    }
}

/// The calls with one more, unless memory runs out.
fn with_call(calls: Option<Vec<Call>>, call: Call) -> Option<Vec<Call>>
    ensures { Adds call (option_map (λ v. v.items) calls) (option_map (λ v. v.items) result) }
{
    match calls {
        Some(mut calls) => match calls.push(call) {
            Ok(()) => Some(calls),
            Err(_) => None,
        },
        None => None,
    }
}

/// A copy of these bytes, if there is memory for it.
fn copied(alloc: Global, bytes: &[u8]) -> Option<Vec<u8>>
    ensures { IfSome result (λ copy. copy.items ≡ bytes.now) }
{
    match bytes.to_vec(alloc) {
        Ok(copy) => Some(copy),
        Err(_) => None,
    }
}

/// The event of a step of a script after these calls: the one that it asks for, if that may come, and else `Quiet`.
fn event_of(step: &Step, calls: &[Call]) -> LinkEvent
    ensures event { result ≡ plays.event_of step.now.happening calls.now }
    ensures may { IsTrue (stands.may result calls.now) }
{
    let event = event_asked(&step.happening, calls);
    if may(&event, calls) {
        event
    } else {
        LinkEvent::Quiet
    }
}

/// The event that a step asks for.
fn event_asked(happening: &Happening, calls: &[Call]) -> LinkEvent
    ensures { result ≡ plays.event_asked happening.now calls.now }
{
    match happening {
        Happening::Comes(connection, _, coming) => {
            let standing = standing_of(calls, *connection);
            LinkEvent::Request(Arrival {
                connection: *connection,
                number: standing.number,
                permitted: standing.fed,
                coming: *coming,
            })
        }
        Happening::Room(connection) => LinkEvent::Room(*connection),
        Happening::Gone(connection, loss) => LinkEvent::Gone(*connection, *loss),
        Happening::Replies(dial, _, coming) => LinkEvent::Reply(*dial, *coming),
        Happening::Quiet | Happening::Fails | Happening::Looks(_) => LinkEvent::Quiet,
    }
}

/// The bytes that come by a step, if its event is this one.
fn bytes_of<'a>(happening: &'a Happening, event: &LinkEvent) -> &'a [u8]
    ensures { result.now ≡ plays.bytes_of happening.now event.now }
{
    match event {
        LinkEvent::Request(_) | LinkEvent::Reply(_, _) => match happening {
            Happening::Comes(_, bytes, _) | Happening::Replies(_, bytes, _) => bytes.items(),
            _ => &[],
        },
        _ => &[],
    }
}

/// The calls after an event with these bytes, and the bytes that it lends. If memory runs out, the calls are no
/// longer kept.
fn after_event(
    alloc: Global,
    calls: Option<Vec<Call>>,
    event: LinkEvent,
    bytes: &[u8],
) -> (Option<Vec<Call>>, Vec<u8>)
    ensures made { Adds (acts.Next event bytes.now) (option_map (λ v. v.items) calls) (option_map (λ v. v.items) result.0) }
    ensures lends { IfTold (option_map (λ v. v.items) result.0) (Lends event bytes.now result.1.items) }
{
    let Some(copy) = copied(alloc, bytes) else {
        return (None, Vec::new(alloc));
    };
    let calls = with_call(calls, Call::Next(event, Bytes::of(copy)));
    match lent_by(alloc, &calls, &event, bytes) {
        Some(lent) => (calls, lent),
        None => (None, Vec::new(alloc)),
    }
}

/// The bytes that an event lends, whose last bytes are these, if there is memory for them.
fn lent_by(
    alloc: Global,
    calls: &Option<Vec<Call>>,
    event: &LinkEvent,
    bytes: &[u8],
) -> Option<Vec<u8>>
    ensures { IfSome result (λ lent. IfTold (option_map (λ v. v.items) calls.now) (Lends event.now bytes.now lent.items)) }
{
    let Some(calls) = calls else {
        return None;
    };
    match event {
        LinkEvent::Request(arrival) => match held(alloc, calls, arrival.connection) {
            Ok(held) => Some(held),
            Err(_) => None,
        },
        LinkEvent::Reply(_, _) => copied(alloc, bytes),
        _ => Some(Vec::new(alloc)),
    }
}

impl Link for MemLink {
    ghost story = { λ l. l.story };

    ghost counts = { λ l. l.counts };

    ghost lends = { λ l. l.lends };

    fn listen(&mut self, address: &str) -> Result<(), Failed>
        ensures listens { OnOk result (Adds (acts.Listen address.now) self.old.story self.new.story) }
        ensures fails { OnErr result (self.new.story ≡ self.old.story) }
        ensures counts { CountsListening result self.old.counts self.new.counts }

        // A failure exactly if the next step of the script is one, which is then played.
        ensures passes { OnOk result ((fails_at (slice_get self.old.script 0) ≡ false) × (self.new.script ≡ self.old.script)) }
        ensures plays { OnErr result ((fails_at (slice_get self.old.script 0) ≡ true) × (self.new.script ≡ drop 1 self.old.script)) }
    {
        if fails(step_at(&self.script, self.at)) {
            self.at = place_after(&self.script, self.at);
            self.counts = self.counts.with_failure();
            return Err(Failed);
        }
        match copied(self.alloc, address.as_bytes()) {
            Some(address) => {
                self.calls = with_call(self.calls.take(), Call::Listen(Text::of(address)));
            }
            None => self.calls = None,
        }
        Ok(())
    }

    fn lent(&self) -> &[u8] {
        self.lent.as_slice()
    }

    fn take(&mut self, connection: ConnectionId, count: u64) {
        self.calls = with_call(self.calls.take(), Call::Take(connection, count));
    }

    fn finish(&mut self, connection: ConnectionId, ending: Ending) {
        self.calls = with_call(self.calls.take(), Call::Finish(connection, ending));
    }

    fn break_off(&mut self, connection: ConnectionId) {
        self.calls = with_call(self.calls.take(), Call::BreakOff(connection));
    }

    fn give(&mut self, connection: ConnectionId, bytes: &[u8]) {
        match copied(self.alloc, bytes) {
            Some(copy) => {
                self.calls = with_call(self.calls.take(), Call::Give(connection, Bytes::of(copy)));
            }
            None => self.calls = None,
        }
    }

    fn dial(&mut self, dial: DialId, address: &str, bytes: &[u8]) {
        match (
            copied(self.alloc, address.as_bytes()),
            copied(self.alloc, bytes),
        ) {
            (Some(address), Some(copy)) => {
                let call = Call::Dial(dial, Text::of(address), Bytes::of(copy));
                self.calls = with_call(self.calls.take(), call);
            }
            _ => self.calls = None,
        }
    }

    fn now(&mut self) -> u64 {
        let seconds = self.time / 1_000;
        self.calls = with_call(self.calls.take(), Call::Now(seconds));
        seconds
    }

    fn millis(&mut self) -> u64 {
        let time = self.time;
        self.calls = with_call(self.calls.take(), Call::Millis(time));
        time
    }

    fn look(&mut self) -> Look
        ensures story { Adds (acts.Look result) self.old.story self.new.story }
        ensures counts { self.new.counts ≡ self.old.counts }

        // What the next step of the script gives, if that is a look, which is then played.
        ensures gives { IfTold self.new.story (λ told. result ≡ plays.look_at (slice_get self.old.script 0)) }
        ensures plays { self.new.script ≡ plays.after_look self.old.script }
        ensures time { self.new.time ≡ self.old.time }
    {
        let step = step_at(&self.script, self.at);
        let next = if looks(step) {
            place_after(&self.script, self.at)
        } else {
            self.at
        };
        let (given, told) = (look_at(self.alloc, step), look_at(self.alloc, step));
        self.at = next;
        match (given, told) {
            (Some(look), Some(copy)) => {
                self.calls = with_call(self.calls.take(), Call::Look(copy));
                look
            }
            _ => {
                self.calls = None;
                Look::Nothing
            }
        }
    }

    fn report(&mut self, line: &[u8]) {
        match copied(self.alloc, line) {
            Some(copy) => {
                self.calls = with_call(self.calls.take(), Call::Report(Bytes::of(copy)));
            }
            None => self.calls = None,
        }
    }

    fn next(&mut self, wait: u64) -> Result<LinkEvent, Failed>
        ensures story { NextGives result self.new.lends self.old.story self.new.story }
        ensures counts { Counted result wait self.old.counts self.new.counts }

        // The next step of the script is played, if there is one.
        ensures plays { PlaysAs result (slice_get self.old.script 0) self.old.story self.new.story }
        ensures rest { self.new.script ≡ drop 1 self.old.script }
        ensures time { self.new.time ≡ time_after result (slice_get self.old.script 0) wait self.old.time }
    {
        let step = step_at(&self.script, self.at);
        let next = place_after(&self.script, self.at);
        if fails(step) {
            self.at = next;
            self.counts = self.counts.with_failure();
            return Err(Failed);
        }
        let calls = self.calls.take();
        let event = event_at(step, &calls);
        let (calls, lent) = after_event(self.alloc, calls, event, bytes_at(step, &event));
        self.time = self.time.saturating_add(passes(step, wait));
        self.at = next;
        self.calls = calls;
        self.lent = lent;
        self.counts = self.counts.with_event(event, wait);
        Ok(event)
    }
}

/// The step at this index of a script, if there is one.
fn step_at(script: &[Step], at: usize) -> Option<&Step>
    requires { at ≤ length script.now }
    ensures { option_copied result ≡ slice_get (drop at script.now) 0 }
{
    script[at..].first()
}

/// Whether the next step is a look.
fn looks(step: Option<&Step>) -> bool
    ensures { result ≡ plays.looks_at (option_copied step.entry) }
{
    match step {
        Some(step) => match step.happening {
            Happening::Looks(_) => true,
            _ => false,
        },
        None => false,
    }
}

/// What a look gives at the next step, if there is memory for it.
fn look_at(alloc: Global, step: Option<&Step>) -> Option<Look>
    ensures { IfSome result (λ look. look ≡ plays.look_at (option_copied step.entry)) }
{
    match step {
        Some(step) => match &step.happening {
            Happening::Looks(look) => copy_of(alloc, look),
            _ => Some(Look::Nothing),
        },
        None => Some(Look::Nothing),
    }
}

/// A copy of what a look gave, if there is memory for it.
fn copy_of(alloc: Global, look: &Look) -> Option<Look>
    ensures { IfSome result (λ copy. copy ≡ look.now) }
{
    match look {
        Look::Nothing => Some(Look::Nothing),
        Look::Failed => Some(Look::Failed),
        Look::Text(bytes) => match copied(alloc, bytes.items()) {
            Some(copy) => Some(Look::Text(Bytes::of(copy))),
            None => None,
        },
    }
}

/// The index of the step after this one.
fn place_after(script: &[Step], at: usize) -> usize
    requires { at ≤ length script.now }
    ensures within { result ≤ length script.now }
    ensures rest { drop result script.now ≡ drop 1 (drop at script.now) }
{
    if at < script.len() { at + 1 } else { at }
}

/// Whether the next step is a failure.
fn fails(step: Option<&Step>) -> bool
    ensures { result ≡ plays.fails_at (option_copied step.entry) }
{
    match step {
        Some(step) => match step.happening {
            Happening::Fails => true,
            _ => false,
        },
        None => false,
    }
}

/// The event of the next step, after these calls.
fn event_at(step: Option<&Step>, calls: &Option<Vec<Call>>) -> LinkEvent
    ensures event { IfTold (option_map (λ v. v.items) calls.now) (λ told. result ≡ plays.event_at (option_copied step.entry) told) }
    ensures may { IfTold (option_map (λ v. v.items) calls.now) (λ told. IsTrue (stands.may result told)) }
{
    match (step, calls) {
        (Some(step), Some(calls)) => event_of(step, calls),
        _ => LinkEvent::Quiet,
    }
}

/// The bytes that come by the next step, if it is this event.
fn bytes_at<'a>(step: Option<&'a Step>, event: &LinkEvent) -> &'a [u8]
    ensures { result.now ≡ plays.bytes_at (option_copied step.entry) event.now }
{
    match step {
        Some(step) => bytes_of(&step.happening, event),
        None => &[],
    }
}

/// The milliseconds that pass by the next step: those of the step, or after the script the whole wait.
fn passes(step: Option<&Step>, wait: u64) -> u64
    ensures { result ≡ plays.passes_at (option_copied step.entry) wait }
{
    match step {
        Some(step) => step.after,
        None => wait,
    }
}
