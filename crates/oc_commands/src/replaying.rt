//! The command `replay`, which plays a schedule and writes its report or its summary.
ghost use Rattle.std.specs.Prelude.{◌≡◌};
ghost use Rattle.oc_io.specs.Faults.{NoFall};
ghost use Rattle.oc_commands.specs.AtReplay.{HappenedAtReplay, scale_of};
ghost use Rattle.oc_commands.specs.Outside.{at_sink, at_source, at_stage};

use crate::headline::headline_holds;
use oc_io::{Sink, Source};
use oc_replay::{ReplayEnd, Stage, replay};
use oc_schedule::Scale;
use std::alloc::Global;

/// Replays the schedule of this scale on the input, and calls the laws that hold of every world of a schedule.
pub fn replay_input<S: Source, K: Sink, T: Stage>(
    alloc: Global,
    input: &mut S,
    out: &mut K,
    stage: &mut T,
    scale: Scale,
    summary: bool,
) -> ReplayEnd
    ensures happened { HappenedAtReplay
        (at_source S.gives S.fails S.ended S.faults input.old input.new)
        (at_sink K.takes K.fails K.faults out.old out.new)
        (at_stage T.world stage.old stage.new) scale summary result }
    ensures input_count { NoFall (S.faults input.old) (S.faults input.new) }
    ensures output_count { NoFall (K.faults out.old) (K.faults out.new) }
{
    headline_holds();
    replay(alloc, input, out, stage, scale, summary)
}

/// The limits of a schedule, by the flag `--large`.
pub fn scale_of(large: bool) -> Scale
    ensures { result ≡ scale_of large }
{
    if large { Scale::Large } else { Scale::Usual }
}
