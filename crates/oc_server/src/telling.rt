//! Inputs that are taken, with their lines.

ghost use Rattle.std.specs.Prelude.{◌≡◌, ◌∷◌, [], IfErr, IfOk, OnOk};
ghost use Rattle.oc_model.specs.Lawful.{IsInput};
ghost use Rattle.oc_deeds.specs.Brief.{told_first};
ghost use Rattle.oc_deeds.specs.Deeds.{Says, Takes};
ghost use Rattle.oc_server.specs.Noting.{NoteBreaks};
ghost use Rattle.oc_server.specs.Parts.{Stops};
ghost use Rattle.oc_server.specs.Scenes.{Did, IsServing};
ghost use Rattle.oc_deeds.specs.Records.{told_ahead};
ghost use Rattle.oc_deeds.specs.Telling.{takes_ahead};

use crate::noting::write_line;
use crate::server::Server;
use crate::taking::line_ahead;
use oc_base::Memory;
use oc_deeds::record::told_first;
use oc_deeds::{Log, TurnEnd};
use oc_io::{Disk, Sink};
use oc_keep::Kept;
use oc_link::Link;
use oc_model::Input;
use std::alloc::Global;

impl<D: Disk, L: Link, K: Sink> Server<D, L, K> {
    /// Takes an input without lines after it, and writes those before it.
    pub fn takes_ahead(&mut self, input: Input) -> Result<(), TurnEnd>
        requires serving { IsServing self.old }
        requires input { IsInput self.old.kept.node.control.nodes self.old.kept.node.control.me input }
        ensures did { OnOk result (Did D.view K.takes K.faults L.story L.counts (Says (told_ahead self.old.log self.old.kept.node.control.me input) ∷ Takes input ∷ []) self.old self.new) }
        ensures breaks { IfErr result (λ end. Stops D.view K.takes K.fails K.faults L.story L.counts end (takes_ahead input) self.old self.new) }
    {
        self.says_ahead(&input)?;
        let _answer = self.takes(input)?;
        Ok(())
    }

    /// Writes the text of an input before its frame. Where the output fails, no frame is made.
    pub(crate) fn says_ahead(&mut self, input: &Input) -> Result<(), TurnEnd>
        requires serving { IsServing self.old }
        requires input { IsInput self.old.kept.node.control.nodes self.old.kept.node.control.me input.now }
        ensures did { OnOk result (Did D.view K.takes K.faults L.story L.counts (Says (told_ahead self.old.log self.old.kept.node.control.me input.now) ∷ []) self.old self.new) }
        ensures breaks { IfErr result (λ end. NoteBreaks D.view K.takes K.fails K.faults L.story L.counts end (told_ahead self.old.log self.old.kept.node.control.me input.now) self.old self.new) }
    {
        self.kept.recovers();
        let line = line_ahead(self.alloc, self.log, &self.kept, input)?;
        write_line(&mut self.sink, &line)
    }

    /// Writes the lines of a node that begins.
    pub fn says_first(&mut self) -> Result<(), TurnEnd>
        requires { IsServing self.old }
        ensures did { OnOk result (Did D.view K.takes K.faults L.story L.counts (Says (told_first self.old.log self.old.kept.node.control self.old.kept.content.shelves) ∷ []) self.old self.new) }
        ensures breaks { IfErr result (λ end. NoteBreaks D.view K.takes K.fails K.faults L.story L.counts end (told_first self.old.log self.old.kept.node.control self.old.kept.content.shelves) self.old self.new) }
    {
        self.kept.recovers();
        let text = first_lines(self.alloc, self.log, &self.kept)?;
        write_line(&mut self.sink, &text)
    }
}

/// The lines of a node that begins.
fn first_lines<D: Disk>(alloc: Global, log: Log, kept: &Kept<D>) -> Result<Vec<u8>, Memory>
    ensures { IfOk result (λ text. text.items ≡ told_first log kept.now.node.control kept.now.content.shelves) }
{
    told_first(alloc, log, kept.node(), kept.shelf())
}
