//! The measures of rates from before the run of a node.

ghost use Rattle.std.specs.Prelude.{◌≡◌, All, IfErr, OnOk};
ghost use Rattle.oc_server.specs.Parts.{Stops};
ghost use Rattle.oc_server.specs.Scenes.{Did, IsServing, setting};
ghost use Rattle.oc_service.specs.Measuring.{begins_with, takes_own_measure, takes_own_measures};
ghost use Rattle.oc_service.specs.WhatNodeDoes.{begins_on, own_measure, own_measures};
ghost use Rattle.oc_updown.specs.MeasureLines.{IsMeasure};

use oc_deeds::TurnEnd;
use oc_io::{Disk, Sink};
use oc_link::Link;
use oc_model::Input;
use oc_server::Server;
use oc_updown::Measure;

/// Reports the node's position in the tree, or begins its record, as the log asks, and takes the
/// measures.
pub(crate) fn begin<D: Disk, L: Link, K: Sink>(server: &mut Server<D, L, K>) -> Result<(), TurnEnd>
    requires serving { IsServing server.old }
    requires lawful { All (IsMeasure server.old.kept.node.control.nodes) server.old.config.measures }
    ensures did { OnOk result (Did D.view K.takes K.faults L.story L.counts
        (begins_on (setting server.old) server.old.config.measures server.old.kept.node.control server.old.kept.content.shelves) server.old server.new) }
    ensures stops { IfErr result (λ end. Stops D.view K.takes K.fails K.faults L.story L.counts end
        (begins_with server.old.config.measures) server.old server.new) }
{
    server.kept.recovers();
    server.says_first()?;
    take_measures(server)
}

/// Takes each of the node's own measures in the configuration as an input, in order.
fn take_measures<D: Disk, L: Link, K: Sink>(server: &mut Server<D, L, K>) -> Result<(), TurnEnd>
    requires serving { IsServing server.old }
    requires lawful { All (IsMeasure server.old.kept.node.control.nodes) server.old.config.measures }
    ensures did { OnOk result (Did D.view K.takes K.faults L.story L.counts
        (own_measures (setting server.old) server.old.config.measures) server.old server.new) }
    ensures stops { IfErr result (λ end. Stops D.view K.takes K.fails K.faults L.story L.counts end
        (takes_own_measures server.old.config.measures) server.old server.new) }
{
    'measures: for place in 0..server.config.measures.len() {
        let measure = server.config.measures[place];
        take_measure(server, measure)?;
    }
    Ok(())
}

/// Takes a measure as an input, if it is the node's own.
fn take_measure<D: Disk, L: Link, K: Sink>(
    server: &mut Server<D, L, K>,
    measure: Measure,
) -> Result<(), TurnEnd>
    requires serving { IsServing server.old }
    requires lawful { IsMeasure server.old.kept.node.control.nodes measure }
    ensures did { OnOk result (Did D.view K.takes K.faults L.story L.counts (own_measure (setting server.old) measure) server.old server.new) }
    ensures stops { IfErr result (λ end. Stops D.view K.takes K.fails K.faults L.story L.counts end (takes_own_measure measure) server.old server.new) }
{
    server.kept.recovers();
    if measure.from != server.kept.node().id() {
        return Ok(());
    }
    server.takes_ahead(Input::Measured {
        peer: measure.peer,
        rate: measure.rate,
        hops: measure.hops,
    })
}
