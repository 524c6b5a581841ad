ghost use Rattle.std.specs.Prelude.{◌≡◌, Option, List, ◌∷◌, length};
ghost use Rattle.oc_base.specs.Lawful.{IsNode};
ghost use Rattle.oc_config.specs.Settings.{Settings};
ghost use Rattle.oc_keep.specs.Files.{AreHonest, Disks};
ghost use Rattle.oc_keep.specs.Trials.{first_node};
ghost use Rattle.oc_link.specs.declared.call.Call.{Call};
ghost use Rattle.oc_deeds.specs.Deeds.{Deed, Setting};
ghost use Rattle.oc_deeds.specs.Under.{Under};
ghost use Rattle.oc_deeds.specs.Turns.{Observation};
ghost use Rattle.oc_deeds.specs.declared.ends.TurnEnd.{TurnEnd};
ghost use Rattle.oc_deeds.specs.declared.log.Log.TheVariants.{Record as RecordLog};
ghost use Rattle.oc_service.specs.OnSite.{DidOn, StoppedOn, header_for, setting_of};
ghost use Rattle.oc_service.specs.WhatNodeDoes.{Machine, begun, node_deeds};
ghost use Rattle.oc_service.specs.WhatNodeHears.{AreHeard};
ghost use Rattle.oc_service.specs.declared.running.Task.{Task};
ghost use Rattle.oc_updown.specs.declared.measure_lines.Measure.{Measure};
ghost use Rattle.oc_laws_records.specs.Kinds.{ArePlain};
ghost use Rattle.oc_laws_records.specs.Written.{IsCutRunOf, IsLawfulRunOf};

use oc_io::{Disk, Sink};
use oc_link::Link;

/// A running node, whatever its link reports, takes inputs of the kinds that records can have,
/// ticks no later than records can, and notes no more than a line.
pub fn nodes_take_inputs_of_records()
    ensures { (s : Setting) (calls : Option (List Call)) (ms : List Measure) (ts : List Observation) (m : Machine)
        → AreHeard s calls ts (begun s ms m) → ArePlain (node_deeds s ms ts m) }
{}

/// A node that keeps a record on honest disks and made all its turns has written the text of a
/// lawful run of its network: of the node in its files, with the inputs that it took. If it ended
/// early, the same is true of the deeds that it did, perhaps with the line of one more input at the
/// end, which was to be taken next.
pub fn nodes_write_lawful_runs<D: Disk, L: Link, K: Sink>()
    ensures whole { (c : Settings) (task : Task) (deeds : List Deed) (old new : Disks D) (link after : L) (sink written : K)
        → IsNode (length c.addresses) task.me → task.log ≡ RecordLog → AreHonest D.view old
        → DidOn D.view L.story L.counts K.takes c task deeds old new link after sink written
        → IsLawfulRunOf (header_for task c) (setting_of task) (first_node D.view (header_for task c) task.me old) deeds }
    ensures cut { (c : Settings) (task : Task) (end : TurnEnd) (d : Deed) (ds : List Deed) (under : Under) (old new : Disks D) (link after : L) (sink written : K)
        → IsNode (length c.addresses) task.me → task.log ≡ RecordLog → (honest : AreHonest D.view old)
        → (stopped : StoppedOn D.view L.story L.counts K.takes K.fails c task end (d ∷ ds) under old new link after sink written)
        → IsCutRunOf (header_for task c) (setting_of task) (first_node D.view (header_for task c) task.me old) (d ∷ ds) (stopped.cut honest).behind }
{}
