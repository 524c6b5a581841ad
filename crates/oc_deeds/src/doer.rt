//! A doer of deeds: a running node with its files, its link and its output, or a stand-in for one.

ghost use Rattle.std.specs.Prelude.{◌≡◌, ◌<◌, ◌≤◌, IfErr, IfOk, IfSome, List, OnOk, [], false, length, true};
ghost use Rattle.std.specs.List.{AllByRecursion};
ghost use Rattle.oc_base.specs.Groups.{shelf};
ghost use Rattle.oc_base.specs.Lawful.{IsNode};
ghost use Rattle.oc_base.specs.declared.limits.TheConstants.{MAX_AREA, MAX_NODES as MOST_NODES};
ghost use Rattle.oc_model.specs.Lawful.{IsInput};
ghost use Rattle.oc_model.specs.Step.{step};
ghost use Rattle.oc_routes.specs.Asks.{IsLawfulAsk};
ghost use Rattle.oc_routes.specs.Lawful.{IsAsking};
ghost use Rattle.oc_wire.specs.Spelling.{HasSpelling};
ghost use Rattle.oc_deeds.specs.Areas.{areas_among};
ghost use Rattle.oc_deeds.specs.Asks.{has_to_wait, replies};
ghost use Rattle.oc_config.specs.Reading.{IsConfig};
ghost use Rattle.oc_deeds.specs.Deeds.{Accepts, BreaksOff, Drops, Gives, Keeps, LaysAside, Looks, Notes, Permits, Probes, Reads, Refuses, Rereads, Rejects, Running, Setting, Takes, Tells, Waits, after_all, back_to, sender_of};
ghost use Rattle.oc_deeds.specs.Lawful.{IsLawfulWaiting, IsLawfulWork};
ghost use Rattle.oc_deeds.specs.Parts.{Part, in_turn, nothing, one};
ghost use Rattle.oc_deeds.specs.Records.{is_record};
ghost use Rattle.oc_deeds.specs.Sends.{dials_as};
ghost use Rattle.oc_deeds.specs.Telling.{says_ahead, says_after};
ghost use Rattle.oc_deeds.specs.declared.ends.TurnEnd.{TurnEnd};
ghost use Rattle.oc_deeds.specs.declared.ends.TurnEnd.TheVariants.{Memory as MemoryEnd};

use crate::asked::Accepted;
use crate::brief::Before;
use crate::dials::Dialling;
use crate::ends::TurnEnd;
use crate::log::Log;
use crate::outbox::Outbox;
use crate::unfit::Unfit;
use crate::work::{Pending, Transfer, Waiting, Work};
use oc_base::{NodeId, Shelf};
use oc_config::Config;
use oc_link::{ConnectionId, DialId, Look};
use oc_model::{Answer, Input};
use oc_node::Node;
use oc_routes::{MessageFault, Refusal, Request};
use std::alloc::Global;

/// A doer of deeds, one after another. The code that decides asks it for the state of the node, and then for a deed.
pub trait Doer {
    /// The running node.
    ghost running: { Self → Running };

    /// The setting of the node.
    ghost setting: { Self → Setting };

    /// The disks keep the disk model.
    ghost honest: { Self → Type 0 };

    /// The facts that hold between any two deeds.
    ghost serving: { Self → Type 0 };

    /// A part of a turn was done.
    ghost does: { Part → Self → Self → Type 0 };

    /// A front of a part was done, and then the part ended with this end.
    ghost stops: { TurnEnd → Part → Self → Self → Type 0 };

    // The state of the node

    /// The allocator of the node.
    fn alloc(&self) -> Global;

    /// The control state of the node.
    fn node(&self) -> &Node
        ensures { result.now.control ≡ (running self.now).node.control };

    /// The node's holding of each group.
    fn shelf(&self) -> &[Shelf]
        ensures { honest self.now → result.now ≡ shelf (running self.now).node.groups };

    /// The messages that the node has still to send.
    fn outbox(&self) -> &Outbox
        ensures { result.now ≡ (running self.now).outbox };

    /// The works on the connections of the node.
    fn works(&self) -> &[Work]
        ensures { result.now ≡ (running self.now).works };

    /// The dials of the node.
    fn dials_made(&self) -> &[Dialling]
        ensures { result.now ≡ (running self.now).dials };

    /// The form of the node's log of inputs.
    fn log(&self) -> Log
        ensures { result ≡ (setting self.now).log };

    /// The configuration that it goes by.
    fn config(&self) -> &Config
        ensures { result.now ≡ (running self.now).config };

    // Deeds

    /// The time in milliseconds.
    fn millis(&mut self) -> u64
        requires { serving self.old }
        ensures { does (one (Reads result)) self.old self.new };

    /// The time in seconds.
    fn seconds(&mut self) -> u64
        requires { serving self.old }
        ensures { does (one (Tells result)) self.old self.new };

    /// Takes an input. Gives the answer of the step.
    fn takes(&mut self, input: Input) -> Result<Answer, TurnEnd>
        requires serving { serving self.old }
        requires input { IsInput (running self.old).node.control.nodes (running self.old).node.control.me input }
        ensures did { OnOk result (does (one (Takes input)) self.old self.new) }
        ensures answer { IfOk result (λ answer. honest self.old → answer ≡ (step (running self.old).node input).answer) }
        ensures breaks { IfErr result (λ end. stops end (one (Takes input)) self.old self.new) };

    /// Takes the input of a request. Gives the answer of the step, and the message back to its sender.
    fn accepts(&mut self, input: Input) -> Result<Accepted, TurnEnd>
        requires serving { serving self.old }
        requires input { IsInput (running self.old).node.control.nodes (running self.old).node.control.me input }
        ensures did { OnOk result (does (one (Accepts input)) self.old self.new) }
        ensures answer { IfOk result (λ accepted. honest self.old → accepted.answer ≡ (step (running self.old).node input).answer) }
        ensures back { IfOk result (λ accepted. honest self.old → accepted.back ≡ back_to (sender_of input) (step (running self.old).node input).sends) }
        ensures text { IfOk result (λ accepted. IfSome accepted.back (λ m. HasSpelling m.body)) }
        ensures breaks { IfErr result (λ end. stops end (one (Accepts input)) self.old self.new) };

    /// Writes the text of an input before its frame.
    fn says_ahead(&mut self, input: &Input) -> Result<(), TurnEnd>
        requires serving { serving self.old }
        requires input { IsInput (running self.old).node.control.nodes (running self.old).node.control.me input.now }
        ensures did { OnOk result (does (says_ahead input.now) self.old self.new) }
        ensures breaks { IfErr result (λ end. stops end (says_ahead input.now) self.old self.new) };

    /// Writes the lines of an input that was taken, by the facts before it.
    fn says_after(&mut self, before: Option<Before>, answer: Answer) -> Result<(), TurnEnd>
        requires { serving self.old }
        ensures did { OnOk result (does (says_after before answer) self.old self.new) }
        ensures breaks { IfErr result (λ end. stops end (says_after before answer) self.old self.new) };

    /// Writes the line `! WHY`.
    fn notes(&mut self, why: &[u8]) -> Result<(), TurnEnd>
        requires { serving self.old }
        ensures did { OnOk result (does (one (Notes why.now)) self.old self.new) }
        ensures breaks { IfErr result (λ end. stops end (one (Notes why.now)) self.old self.new) };

    /// Gives a connection the permission to send the body of its request.
    fn permits(&mut self, connection: ConnectionId)
        requires { serving self.old }
        ensures { does (one (Permits connection)) self.old self.new };

    /// Takes a request that waits.
    fn waits(&mut self, waiting: Waiting) -> Result<(), TurnEnd>
        requires serving { serving self.old }
        requires waiting { IsLawfulWaiting (running self.old).node.control.nodes (running self.old).node.control.me waiting }
        ensures did { OnOk result (does (one (Waits waiting)) self.old self.new) }
        ensures breaks { IfErr result (λ end. stops end (one (Waits waiting)) self.old self.new) };

    /// Answers a request by the result of its input.
    fn replies(&mut self, pending: Pending, accepted: &Accepted, now: u64) -> Result<(), TurnEnd>
        requires serving { serving self.old }
        requires asks { IsAsking pending.asked }
        requires back { IfSome accepted.now.back (λ m. HasSpelling m.body) }
        ensures did { OnOk result (does (replies pending now accepted.now.answer accepted.now.back) self.old self.new) }
        ensures breaks { IfErr result (λ end. stops end (replies pending now accepted.now.answer accepted.now.back) self.old self.new) };

    /// Refuses a request on a connection on which this many bytes of it came. Where the connection is kept, its next request
    /// begins after the bytes of this one; else all that came is passed over.
    fn refuses(
        &mut self,
        connection: ConnectionId,
        count: u64,
        refusal: Refusal,
    ) -> Result<(), TurnEnd>
        requires { serving self.old }
        ensures did { OnOk result (does (one (Refuses connection count refusal)) self.old self.new) }
        ensures breaks { IfErr result (λ end. stops end (one (Refuses connection count refusal)) self.old self.new) };

    /// Counts the reply to a message that was refused.
    fn rejects(&mut self, fault: MessageFault)
        requires { serving self.old }
        ensures { does (one (Rejects fault)) self.old self.new };

    /// Breaks a connection off.
    fn breaks_off(&mut self, connection: ConnectionId)
        requires { serving self.old }
        ensures { does (one (BreaksOff connection)) self.old self.new };

    /// Gives the next piece of a content.
    fn gives(&mut self, transfer: Transfer, now: u64) -> Result<(), TurnEnd>
        requires { serving self.old }
        ensures did { OnOk result (does (one (Gives transfer now)) self.old self.new) }
        ensures breaks { IfErr result (λ end. stops end (one (Gives transfer now)) self.old self.new) };

    /// A content has nothing to give until its group has grown.
    fn lays_aside(&mut self, transfer: Transfer) -> Result<(), TurnEnd>
        requires { serving self.old }
        ensures did { OnOk result (does (one (LaysAside transfer)) self.old self.new) }
        ensures breaks { IfErr result (λ end. stops end (one (LaysAside transfer)) self.old self.new) };

    /// Ends the work on a connection, with a line where `told`.
    fn drops(&mut self, connection: ConnectionId, told: bool) -> Result<(), TurnEnd>
        requires { serving self.old }
        ensures did { OnOk result (does (one (Drops connection told)) self.old self.new) }
        ensures breaks { IfErr result (λ end. stops end (one (Drops connection told)) self.old self.new) };

    /// Dials the message at an index of the outbox under this number.
    fn dials(&mut self, index: usize, dial: DialId) -> Result<(), TurnEnd>
        requires serving { serving self.old }
        requires index { index < length (running self.old).outbox }
        ensures did { OnOk result (does (dials_as index dial) self.old self.new) }
        ensures breaks { IfErr result (λ end. stops end (dials_as index dial) self.old self.new) };

    /// Begins the probe of a node under this number and at this time.
    fn probes(&mut self, peer: NodeId, dial: DialId, now: u64) -> Result<(), TurnEnd>
        requires serving { serving self.old }
        requires peer { IsNode (running self.old).node.control.nodes peer }
        ensures did { OnOk result (does (one (Probes peer dial now)) self.old self.new) }
        ensures breaks { IfErr result (λ end. stops end (one (Probes peer dial now)) self.old self.new) };

    /// Looks at the file of the configuration, where it is time to.
    fn looks(&mut self) -> Look
        requires { serving self.old }
        ensures { does (one (Looks result)) self.old self.new };

    /// Goes by this configuration from now on, and by its areas, and tells so. There are nodes for all of its places; where a
    /// record is written, the areas are those of before.
    fn rereads(&mut self, config: Config, areas: Vec<u8>)
        requires serving { serving self.old }
        requires config { IsConfig config }
        requires nodes { length config.addresses ≤ (running self.old).node.control.nodes }
        requires areas { areas.items ≡ areas_among (running self.old).node.control.nodes config.areas }
        requires bytes { AllByRecursion (λ a. a ≤ MAX_AREA) areas.items }
        requires recorded { is_record (setting self.old).log ≡ true → areas.items ≡ (running self.old).node.control.areas }
        ensures { does (one (Rereads config)) self.old self.new };

    /// Tells why it goes on by the configuration that it has.
    fn keeps(&mut self, why: Unfit) -> Result<(), TurnEnd>
        requires { serving self.old }
        ensures did { OnOk result (does (one (Keeps why)) self.old self.new) }
        ensures breaks { IfErr result (λ end. stops end (one (Keeps why)) self.old self.new) };

    /// Whether a request is to wait. Nothing of the node changes.
    fn has_to_wait(&mut self, request: &Request) -> Result<bool, TurnEnd>
        requires serving { serving self.old }
        requires request { IsLawfulAsk (running self.old).node.control.nodes (running self.old).node.control.me request.now }
        ensures waits { IfOk result (λ waits. honest self.old → waits ≡ has_to_wait request.now (running self.old).node) }
        ensures did { OnOk result (does nothing self.old self.new) }
        ensures breaks { IfErr result (λ end. stops end nothing self.old self.new) };

    // Laws, which do nothing

    /// Memory may run out before any deed.
    fn may_end(&self)
        requires { serving self.now }
        ensures { (p : Part) → stops MemoryEnd p self.now self.now };

    /// Parts go on from one another.
    fn parts_go_on()
        ensures stays_serving { (p : Part) (a b : Self) → does p a b → serving a → serving b }
        ensures stays_honest { (p : Part) (a b : Self) → does p a b → honest a → honest b }
        ensures stays_set { (p : Part) (a b : Self) → does p a b → setting b ≡ setting a }
        ensures same_me { (p : Part) (a b : Self) → does p a b → (running b).node.control.me ≡ (running a).node.control.me }
        ensures same_nodes { (p : Part) (a b : Self) → does p a b → (running b).node.control.nodes ≡ (running a).node.control.nodes }
        ensures leaves { (p : Part) (a b : Self) → does p a b → honest a → running b ≡ after_all (p (setting a) (running a)) (running a) }
        ensures nothing_done { (p : Part) (a : Self) → serving a → (honest a → p (setting a) (running a) ≡ []) → does p a a }
        ensures as_same { (p q : Part) (a b : Self) → (honest a → q (setting a) (running a) ≡ p (setting a) (running a)) → does p a b → does q a b }
        ensures follows { (p q r : Part) (a b c : Self) → does p a b → (honest a → r (setting b) (running b) ≡ q (setting b) (running b)) → does r b c → does (in_turn p q) a c };

    /// A part may end partway through.
    fn parts_stop()
        ensures as_same { (end : TurnEnd) (p q : Part) (a c : Self) → (honest a → q (setting a) (running a) ≡ p (setting a) (running a)) → stops end p a c → stops end q a c }
        ensures in_first { (end : TurnEnd) (p q : Part) (a c : Self) → stops end p a c → stops end (in_turn p q) a c }
        ensures follows { (end : TurnEnd) (p q r : Part) (a b c : Self) → does p a b → (honest a → r (setting b) (running b) ≡ q (setting b) (running b)) → stops end r b c → stops end (in_turn p q) a c };

    /// The works are lawful, and the setting has the id of the node.
    fn is_lawful()
        ensures lawful_works { (a : Self) → serving a → AllByRecursion (IsLawfulWork (running a).node.control.nodes (running a).node.control.me) (running a).works }
        ensures same_me { (a : Self) → (setting a).me ≡ (running a).node.control.me }
        ensures places { (a : Self) → serving a → length (running a).config.addresses ≤ (running a).node.control.nodes }
        ensures roomy { (a : Self) → serving a → is_record (setting a).log ≡ false → (running a).node.control.nodes ≡ MOST_NODES }
        ensures areas { (a : Self) → serving a → (running a).node.control.areas ≡ areas_among (running a).node.control.nodes (running a).config.areas };
}
