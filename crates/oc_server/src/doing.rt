//! The deeds of a server, on its files, its link and its output.

ghost use Rattle.std.specs.Prelude.{◌≡◌};
ghost use Rattle.oc_keep.specs.KeptView.{IsHonest};
ghost use Rattle.oc_routes.specs.Sights.{about_of};
ghost use Rattle.oc_deeds.specs.Deeds.{when_seen};
ghost use Rattle.oc_server.specs.Parts.{Does, Stops};
ghost use Rattle.oc_server.specs.Scenes.{IsServing};
ghost use Rattle.oc_server.specs.Scenes as scenes;

use crate::answering::has_to_wait;
use crate::dialling::{address_of, begin_dial, request_to};
use crate::giving::{finish, first_piece, joined, next_piece, take_request, whole};
use crate::noting::{refuse, write_line, write_told};
use crate::server::Server;
use crate::taking::{count_taken, keep, line_of, prior_to};
use oc_base::{NodeId, Shelf};
use oc_config::Config;
use oc_deeds::asked::{Accepted, held_back};
use oc_deeds::brief::{Before, told_after};
use oc_deeds::contents::{begin_rest, keeps, transfer_for};
use oc_deeds::counting::{count_refusal, count_reply};
use oc_deeds::lines::put_note;
use oc_deeds::{
    Dialling, Doer, Errand, Log, Outbox, Pending, Transfer, TurnEnd, Unfit, Waiting, Work, put_all,
    put_unfit_line,
};
use oc_http::write_probe;
use oc_io::{Disk, Sink};
use oc_link::{ConnectionId, DialId, Ending, Link, Look};
use oc_model::{Answer, Input};
use oc_node::Node;
use oc_routes::{About, CONTINUE, MessageFault, Refusal, Request, put_refusal_line, refusal_reply};
use std::alloc::Global;

/// The line that tells that a configuration is gone by from now on.
const REREAD_LINE: &[u8] = b"overcast: configuration read again\n";

impl<D: Disk, L: Link, K: Sink> Doer for Server<D, L, K> {
    ghost running = { scenes.running };

    ghost setting = { scenes.setting };

    ghost honest = { λ s. IsHonest D.view s.kept };

    ghost serving = { IsServing };

    ghost does = { Does D.view K.takes K.faults L.story L.counts };

    ghost stops = { Stops D.view K.takes K.fails K.faults L.story L.counts };

    fn alloc(&self) -> Global {
        self.alloc
    }

    fn node(&self) -> &Node {
        self.kept.node()
    }

    fn shelf(&self) -> &[Shelf] {
        self.kept.shelf()
    }

    fn outbox(&self) -> &Outbox {
        &self.outbox
    }

    fn works(&self) -> &[Work] {
        self.works.list()
    }

    fn dials_made(&self) -> &[Dialling] {
        self.dials.list()
    }

    fn log(&self) -> Log {
        self.log
    }

    fn config(&self) -> &Config {
        &self.config
    }

    fn millis(&mut self) -> u64 {
        self.link.millis()
    }

    fn seconds(&mut self) -> u64 {
        self.link.now()
    }

    fn takes(&mut self, input: Input) -> Result<Answer, TurnEnd> {
        self.takes(input)
    }

    fn accepts(&mut self, input: Input) -> Result<Accepted, TurnEnd> {
        self.kept.recovers();
        let line = line_of(self.alloc, self.log, &self.kept, &input)?;
        let prior = prior_to(self.alloc, &self.kept, &input)?;
        let outcome = keep(&mut self.kept, input)?;
        write_line(&mut self.sink, &line)?;
        count_taken(&mut self.tally, &prior, &outcome, &self.kept);
        // The first message that goes back to the sender of a message is its reply.
        let (back, others) = held_back(prior.sender, outcome.sends);
        put_all(&mut self.outbox, others);
        Ok(Accepted {
            answer: outcome.answer,
            back,
        })
    }

    fn says_ahead(&mut self, input: &Input) -> Result<(), TurnEnd> {
        self.says_ahead(input)
    }

    fn says_after(&mut self, before: Option<Before>, answer: Answer) -> Result<(), TurnEnd> {
        self.kept.recovers();
        let text = told_after(self.alloc, &before, self.kept.node(), answer)?;
        write_line(&mut self.sink, &text)
    }

    fn notes(&mut self, why: &[u8]) -> Result<(), TurnEnd> {
        self.kept.recovers();
        let mut line = Vec::new(self.alloc);
        put_note(&mut line, why)?;
        write_line(&mut self.sink, &line)
    }

    fn permits(&mut self, connection: ConnectionId) {
        self.link.give(connection, CONTINUE);
    }

    fn waits(&mut self, waiting: Waiting) -> Result<(), TurnEnd> {
        self.kept.recovers();
        let (connection, count) = (waiting.connection, waiting.request.count);
        self.works.begin(Work::Waits(waiting))?;
        self.link.take(connection, count);
        Ok(())
    }

    fn replies(&mut self, pending: Pending, accepted: &Accepted, now: u64) -> Result<(), TurnEnd> {
        self.kept.recovers();
        let response = self.response_to(&pending, accepted)?;
        let transfer = transfer_for(&pending, &response, now);
        let piece = first_piece(self.alloc, &mut self.kept, &transfer, now)?;
        self.kept.recovers();
        let text = joined(self.alloc, response.text.items(), &piece.text)?;
        let _waited = self.works.take(pending.connection);
        begin_rest(&mut self.works, &piece.rest)?;
        take_request(&mut self.link, &pending);
        let all = whole(&text, response.text.items());
        self.link.give(pending.connection, all);
        let ending = Ending {
            keeps: keeps(response.connection),
            watched: pending.told,
        };
        finish(&mut self.link, pending.connection, ending, &piece.rest);
        count_reply(&mut self.tally, &pending.asked.operation, all);
        Ok(())
    }

    fn refuses(
        &mut self,
        connection: ConnectionId,
        count: u64,
        refusal: Refusal,
    ) -> Result<(), TurnEnd> {
        self.kept.recovers();
        let reply = refusal_reply(self.alloc, refusal)?;
        let mut line = Vec::new(self.alloc);
        put_refusal_line(&mut line, refusal.why)?;
        // The line comes first, so that no client is refused without a line.
        write_line(&mut self.sink, &line)?;
        count_refusal(&mut self.tally, refusal, &reply);
        refuse(&mut self.link, connection, count, refusal.kept, reply);
        Ok(())
    }

    fn rejects(&mut self, fault: MessageFault) {
        self.tally.refuses(fault);
    }

    fn breaks_off(&mut self, connection: ConnectionId) {
        let _gone = self.works.take(connection);
        self.link.break_off(connection);
    }

    fn gives(&mut self, transfer: Transfer, now: u64) -> Result<(), TurnEnd> {
        let piece = next_piece(self.alloc, &mut self.kept, &transfer, now)?;
        self.kept.recovers();
        let _given = self.works.take(transfer.connection);
        begin_rest(&mut self.works, &piece.rest)?;
        self.link.give(transfer.connection, &piece.text);
        let ending = Ending {
            keeps: transfer.keeps,
            watched: transfer.told,
        };
        finish(&mut self.link, transfer.connection, ending, &piece.rest);
        self.tally.sends(piece.text.len());
        Ok(())
    }

    fn lays_aside(&mut self, transfer: Transfer) -> Result<(), TurnEnd> {
        self.kept.recovers();
        let _content = self.works.take(transfer.connection);
        self.works.begin(Work::Aside(transfer))?;
        Ok(())
    }

    fn drops(&mut self, connection: ConnectionId, told: bool) -> Result<(), TurnEnd> {
        self.kept.recovers();
        write_told(&mut self.sink, told)?;
        let _gone = self.works.take(connection);
        Ok(())
    }

    fn dials(&mut self, index: usize, dial: DialId) -> Result<(), TurnEnd> {
        self.kept.recovers();
        match self.outbox.take(index) {
            Some(message) => {
                let text = request_to(self.alloc, &self.config, &message)?;
                let address = address_of(&self.config, message.to);
                begin_dial(
                    &mut self.link,
                    &mut self.dials,
                    address,
                    &message,
                    dial,
                    &text,
                )?;
                Ok(())
            }
            None => Ok(()),
        }
    }

    fn probes(&mut self, peer: NodeId, dial: DialId, now: u64) -> Result<(), TurnEnd> {
        self.kept.recovers();
        let address = address_of(&self.config, peer);
        let text = write_probe(self.alloc, address)?;
        let errand = Errand::Probe { peer, since: now };
        self.dials.begin(dial, errand)?;
        self.link.dial(dial, address, &text);
        Ok(())
    }

    fn looks(&mut self) -> Look {
        let look = self.link.look();
        self.about = when_seen(self.about, &look);
        look
    }

    fn rereads(&mut self, config: Config, areas: Vec<u8>) {
        self.kept.set_areas(areas);
        self.config = config;
        self.about.refused = false;
        self.link.report(REREAD_LINE);
    }

    fn keeps(&mut self, why: Unfit) -> Result<(), TurnEnd> {
        self.kept.recovers();
        let mut line = Vec::new(self.alloc);
        put_unfit_line(&mut line, &why)?;
        self.about.refused = true;
        self.link.report(&line);
        Ok(())
    }

    fn has_to_wait(&mut self, request: &Request) -> Result<bool, TurnEnd> {
        has_to_wait(&mut self.kept, request)
    }

    fn may_end(&self) {
        self.kept.recovers();
    }

    fn parts_go_on() {}

    fn parts_stop() {}

    fn is_lawful() {}
}

/// What is told of the program after a look at the configuration's file; one that can't be read is refused.
fn when_seen(about: About, look: &Look) -> About
    ensures { about_of result ≡ when_seen look.now (about_of about) }
{
    match look {
        Look::Failed => About {
            refused: true,
            ..about
        },
        Look::Nothing | Look::Text(_) => about,
    }
}
