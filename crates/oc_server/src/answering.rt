//! The answers to requests, and the requests that wait.

ghost use Rattle.std.specs.Prelude.{◌≡◌, ◌≤◌, false, length, map, option_map, string_bytes, IfErr, IfOk, IfSome, OnOk};
ghost use Rattle.oc_base.specs.Groups.{shelf};
ghost use Rattle.oc_keep.specs.KeptView.{IsHonest, node_of};
ghost use Rattle.oc_model.specs.Lawful.{IsInput};
ghost use Rattle.oc_model.specs.Step.{step};
ghost use Rattle.oc_routes.specs.Asks.{IsLawfulAsk};
ghost use Rattle.oc_routes.specs.Reports.{report_of};
ghost use Rattle.oc_routes.specs.Routes.{response_for};
ghost use Rattle.oc_routes.specs.Sights.{sight_of};
ghost use Rattle.oc_routes.specs.Lawful.{IsAsking};
ghost use Rattle.oc_wire.specs.Spelling.{HasSpelling};
ghost use Rattle.oc_deeds.specs.Asks.{answer_now, has_to_wait, holding_in, response_now};
ghost use Rattle.oc_server.specs.Looks.{LooksOnly, LookStops, end_of_ready};
ghost use Rattle.oc_config.specs.Settings.{key_of};
ghost use Rattle.oc_server.specs.Scenes.{running, setting};

use crate::hearing::ids_of;
use crate::server::Server;
use oc_base::Memory;
use oc_config::Config;
use oc_deeds::asked::{Accepted, holding_in};
use oc_deeds::{Pending, TurnEnd, client_input};
use oc_io::{Disk, Sink};
use oc_keep::{Kept, ReadyError};
use oc_link::Link;
use oc_model::{Answer, Input};
use oc_routes::{
    Answered, Directory, Holding, Manner, Operation, Request, Response, Seen, is_to_wait,
    report_of, respond,
};
use std::alloc::Global;

impl<D: Disk, L: Link, K: Sink> Server<D, L, K> {
    /// The answer to a request by the result of its input.
    pub(crate) fn response_to(
        &self,
        pending: &Pending,
        accepted: &Accepted,
    ) -> Result<Response, Memory>
        requires asks { IsAsking pending.now.asked }
        requires back { IfSome accepted.now.back (λ m. HasSpelling m.body) }
        requires places { length self.now.config.addresses ≤ self.now.kept.node.control.nodes }
        ensures { IfOk result (λ response. IsHonest D.view self.now.kept
            → response ≡ response_now pending.now accepted.now.answer accepted.now.back (setting self.now) (running self.now)) }
    {
        let seen = Seen {
            node: self.kept.node(),
            shelf: self.kept.shelf(),
            messages: self.outbox.len(),
            directory: directory_of(&self.config),
            ids: ids_of(self.kept.node(), &self.config),
            tally: &self.tally,
            about: self.about,
        };
        response_to(self.alloc, &seen, pending, accepted)
    }
}

/// The answer to a request by a node in this state.
fn response_to(
    alloc: Global,
    seen: &Seen<'_>,
    pending: &Pending,
    accepted: &Accepted,
) -> Result<Response, Memory>
    requires asks { IsAsking pending.now.asked }
    requires back { IfSome accepted.now.back (λ m. HasSpelling m.body) }
    ensures { IfOk result (λ response. response ≡ response_for pending.now.asked pending.now.last accepted.now.answer accepted.now.back
        (holding_in pending.now.asked.operation seen.now.shelf.now) (sight_of seen.now).addresses (option_map (λ k. k.now) seen.now.directory.key)
        (report_of pending.now.asked.operation (sight_of seen.now))) }
{
    let report = report_of(alloc, &pending.asked.operation, seen)?;
    let answered = Answered {
        answer: accepted.answer,
        back: accepted.back.as_ref(),
        holding: holding_in(&pending.asked.operation, seen.shelf),
        report: &report,
    };
    respond(
        alloc,
        pending.asked,
        pending.last,
        &answered,
        &seen.directory,
    )
}

/// What replies depend on of the network of a configuration.
fn directory_of(config: &Config) -> Directory<'_>
    ensures addresses { map (option_map string_bytes) result.addresses.now ≡ config.now.addresses }
    ensures names { map (option_map string_bytes) result.names.now ≡ config.now.names }
    ensures retired { result.retired.now ≡ config.now.retired }
    ensures key { option_map (λ k. k.now) result.key ≡ key_of config.now.keys }
{
    Directory {
        addresses: &config.addresses,
        names: &config.names,
        retired: &config.retired,
        key: config.key(),
    }
}

/// Whether a request is to wait: one of a client that follows a group and has all of its bytes.
pub(crate) fn has_to_wait<D: Disk>(kept: &mut Kept<D>, request: &Request) -> Result<bool, TurnEnd>
    requires open { kept.old.closed ≡ false }
    requires request { IsLawfulAsk kept.old.node.control.nodes kept.old.node.control.me request.now }
    ensures waits { IfOk result (λ waits. IsHonest D.view kept.old → waits ≡ has_to_wait request.now (node_of kept.old)) }
    ensures looks { OnOk result (LooksOnly D.view kept.old kept.new) }
    ensures stops { IfErr result (λ end. LookStops D.view end kept.old kept.new) }
{
    let Operation::Client {
        group,
        manner: Manner::Follow,
        ..
    } = &request.asked.operation
    else {
        return Ok(false);
    };
    let answer = answer_now(kept, client_input(&request.asked))?;
    let holding = Holding::in_shelf(kept.shelf(), group);
    Ok(is_to_wait(
        &request.asked.operation,
        request.asked.hint,
        answer,
        holding,
    ))
}

/// The answer that the input of a request would have now, and `Ok` without an input. Nothing of the node changes.
fn answer_now<D: Disk>(kept: &mut Kept<D>, input: Option<Input>) -> Result<Answer, TurnEnd>
    requires open { kept.old.closed ≡ false }
    requires input { IfSome input (IsInput kept.old.node.control.nodes kept.old.node.control.me) }
    ensures answer { IfOk result (λ answer. IsHonest D.view kept.old → answer ≡ answer_now input (node_of kept.old)) }
    ensures looks { OnOk result (LooksOnly D.view kept.old kept.new) }
    ensures stops { IfErr result (λ end. LookStops D.view end kept.old kept.new) }
{
    match input {
        Some(input) => answer_to(kept, input),
        None => Ok(Answer::Ok),
    }
}

/// The answer of the step that this input would take now. Nothing of the node changes.
fn answer_to<D: Disk>(kept: &mut Kept<D>, input: Input) -> Result<Answer, TurnEnd>
    requires open { kept.old.closed ≡ false }
    requires input { IsInput kept.old.node.control.nodes kept.old.node.control.me input }
    ensures answer { IfOk result (λ answer. IsHonest D.view kept.old → answer ≡ (step (node_of kept.old) input).answer) }
    ensures looks { OnOk result (LooksOnly D.view kept.old kept.new) }
    ensures stops { IfErr result (λ end. LookStops D.view end kept.old kept.new) }
{
    match kept.ready(&input) {
        Ok(ready) => Ok(ready.answer()),
        Err(error) => {
            kept.recovers();
            Err(end_of(error))
        }
    }
}

/// The end of a turn where an input is not made ready.
fn end_of(error: ReadyError) -> TurnEnd
    ensures { result ≡ end_of_ready error }
{
    match error {
        ReadyError::Closed | ReadyError::Disk => TurnEnd::Disk,
        ReadyError::Memory => TurnEnd::Memory,
    }
}
