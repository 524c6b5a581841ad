//! Inputs that are taken.

ghost use Rattle.std.specs.Prelude.{◌≡◌, [], ◌∷◌, false, IfOk, IfErr, OnOk};
ghost use Rattle.hex.specs.Hex.{IsBytes};
ghost use Rattle.oc_model.specs.Lawful.{IsInput};
ghost use Rattle.oc_model.specs.Step.{step};
ghost use Rattle.oc_keep.specs.KeptView.{IsHonest, node_of};
ghost use Rattle.oc_routes.specs.Inputs as inputs;
ghost use Rattle.oc_routes.specs.Tallies.{known_before};
ghost use Rattle.oc_deeds.specs.Counted.{noted};
ghost use Rattle.oc_deeds.specs.Deeds.{Takes, sender_of, taken_line};
ghost use Rattle.oc_deeds.specs.Records.{told_ahead};
ghost use Rattle.oc_server.specs.Scenes as scenes;
ghost use Rattle.oc_server.specs.Scenes.{Breaks, Did, IsServing, KeepStops, KeepsOne};
ghost use Rattle.oc_deeds.specs.Under.{Taking};
ghost use Rattle.oc_deeds.specs.Within.{BringsBytes, HasBytes};

use crate::noting::write_line;
use crate::sendable::sendable;
use crate::server::Server;
use oc_base::{Memory, NodeId};
use oc_deeds::asked::sender_of;
use oc_deeds::counting::count_input;
use oc_deeds::{Log, TurnEnd, put_all};
use oc_io::{Disk, Sink};
use oc_keep::{KeepError, Kept, Outcome};
use oc_laws_step::lawful_nodes_stay_lawful;
use oc_link::Link;
use oc_model::{Answer, Body, Input};
use oc_routes::{KnownRows, Tally, put_input_line};
use oc_wire::spellings_are_read;
use std::alloc::Global;

impl<D: Disk, L: Link, K: Sink> Server<D, L, K> {
    /// Takes an input: makes its frame safe, changes the node, and then writes its line, where each input has one there.
    /// The messages of the step go to the outbox. Gives the answer of the step.
    pub fn takes(&mut self, input: Input) -> Result<Answer, TurnEnd>
        requires serving { IsServing self.old }
        requires input { IsInput self.old.kept.node.control.nodes self.old.kept.node.control.me input }
        ensures did { OnOk result (Did D.view K.takes K.faults L.story L.counts (Takes input ∷ []) self.old self.new) }
        ensures answer { IfOk result (λ answer. IsHonest D.view self.old.kept → answer ≡ (step (node_of self.old.kept) input).answer) }
        ensures breaks { IfErr result (λ end. Breaks D.view K.takes K.fails K.faults L.story L.counts end (Taking input) self.old self.new) }
    {
        self.kept.recovers();
        let line = line_of(self.alloc, self.log, &self.kept, &input)?;
        let prior = prior_to(self.alloc, &self.kept, &input)?;
        let outcome = keep(&mut self.kept, input)?;
        // Where the output fails, the disks have the input already.
        write_line(&mut self.sink, &line)?;
        count_taken(&mut self.tally, &prior, &outcome, &self.kept);
        let answer = outcome.answer;
        put_all(&mut self.outbox, outcome.sends);
        Ok(answer)
    }
}

/// What an input is counted by: its sender, and the rows that were known before it.
#[derive(Drop)]
pub(crate) struct Prior {
    pub(crate) sender: Option<NodeId>,
    pub(crate) known: Option<KnownRows>,
}

/// What an input is counted by, of a node that has not taken it yet.
pub(crate) fn prior_to<D: Disk>(
    alloc: Global,
    kept: &Kept<D>,
    input: &Input,
) -> Result<Prior, Memory>
    ensures sender { IfOk result (λ prior. prior.sender ≡ sender_of input.now) }
    ensures known { IfOk result (λ prior. prior.known ≡ known_before input.now kept.now.node.control.kept.table) }
{
    let known = KnownRows::before(alloc, kept.node().table(), input)?;
    let sender = sender_of(input);
    Ok(Prior { sender, known })
}

/// Counts an input that a node has taken with this outcome.
pub(crate) fn count_taken<D: Disk>(
    tally: &mut Tally,
    prior: &Prior,
    outcome: &Outcome,
    kept: &Kept<D>,
)
    ensures { tally.new ≡ noted prior.now.sender prior.now.known outcome.now.answer kept.now.node.control tally.old }
{
    count_input(
        tally,
        prior.sender,
        &prior.known,
        outcome.answer,
        kept.node(),
    );
}

/// The line of an input of this node that is written after its frame; none where not each input has one there.
pub(crate) fn line_of<D: Disk>(
    alloc: Global,
    log: Log,
    kept: &Kept<D>,
    input: &Input,
) -> Result<Vec<u8>, Memory>
    requires { IsInput kept.now.node.control.nodes kept.now.node.control.me input.now }
    ensures { IfOk result (λ line. line.items ≡ taken_line log kept.now.node.control.me input.now) }
{
    match log {
        Log::Inputs => input_line(alloc, kept, input),
        Log::Record | Log::Brief => Ok(Vec::new(alloc)),
    }
}

/// The text of an input of this node before its frame: in a record its line.
pub(crate) fn line_ahead<D: Disk>(
    alloc: Global,
    log: Log,
    kept: &Kept<D>,
    input: &Input,
) -> Result<Vec<u8>, Memory>
    requires { IsInput kept.now.node.control.nodes kept.now.node.control.me input.now }
    ensures { IfOk result (λ line. line.items ≡ told_ahead log kept.now.node.control.me input.now) }
{
    match log {
        Log::Record => input_line(alloc, kept, input),
        Log::Inputs | Log::Brief => Ok(Vec::new(alloc)),
    }
}

/// The line of an input of this node.
fn input_line<D: Disk>(alloc: Global, kept: &Kept<D>, input: &Input) -> Result<Vec<u8>, Memory>
    requires { IsInput kept.now.node.control.nodes kept.now.node.control.me input.now }
    ensures { IfOk result (λ line. line.items ≡ inputs.input_line kept.now.node.control.me input.now) }
{
    spellings_are_read();
    kept.recovers();
    let me = kept.node().id();
    let mut line = Vec::new(alloc);
    put_input_line(alloc, &mut line, me, input)?;
    Ok(line)
}

/// Takes an input into the files of its node.
pub(crate) fn keep<D: Disk>(kept: &mut Kept<D>, input: Input) -> Result<Outcome, TurnEnd>
    requires open { kept.old.closed ≡ false }
    requires input { IsInput kept.old.node.control.nodes kept.old.node.control.me input }
    ensures kept { IfOk result (λ outcome. KeepsOne D.view input outcome kept.old kept.new) }
    ensures stops { IfErr result (λ end. KeepStops D.view end input kept.old kept.new) }
{
    lawful_nodes_stay_lawful();
    spellings_are_read();
    kept.recovers();
    brings_bytes(&input);
    let nodes = kept.node().nodes();
    match kept.take(input) {
        Ok(outcome) => Ok(sendable(nodes, outcome)),
        Err(error) => {
            kept.recovers();
            Err(end_of(error))
        }
    }
}

/// The items of an input are bytes, which the type of a slice says.
fn brings_bytes(input: &Input)
    ensures { BringsBytes input.now }
{
    match input {
        Input::Publish { bytes, .. } => are_bytes(bytes.items()),
        Input::Delivered(message) => has_bytes(&message.body),
        _ => {}
    }
}

/// The items of a message's body are bytes, too.
fn has_bytes(body: &Body)
    ensures { HasBytes body.now }
{
    match body {
        Body::Chunk { bytes, .. } => are_bytes(bytes.items()),
        _ => {}
    }
}

/// The items of a slice of bytes are bytes.
fn are_bytes(items: &[u8])
    ensures { IsBytes items.now }
{}

/// The cause for which an input is not taken.
fn end_of(error: KeepError) -> TurnEnd
    ensures { result ≡ scenes.end_of error }
{
    match error {
        KeepError::Closed | KeepError::Disk => TurnEnd::Disk,
        KeepError::Memory => TurnEnd::Memory,
        KeepError::Full => TurnEnd::Full,
    }
}
