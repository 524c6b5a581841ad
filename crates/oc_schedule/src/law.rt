ghost use Rattle.std.specs.Prelude.{ℕ, ◌+◌, ◌≤◌};
ghost use Rattle.oc_base.specs.declared.limits.TheConstants.{MAX_NODES};
ghost use Rattle.oc_schedule.specs.declared.generating.TheConstants.{MAX_GENERATED_EVENTS};
ghost use Rattle.oc_schedule.specs.Generator.{generated};
ghost use Rattle.oc_schedule.specs.declared.scale.Scale.TheVariants.{Usual};
ghost use Rattle.oc_schedule.specs.Schedule.{IsSchedule};
ghost use Rattle.oc_schedule.specs.Examples.{AreRead};

/// The worked examples, read by the definitions.
pub fn examples_are_read()
    ensures { AreRead }
{}

/// A generated schedule is within the ranges and the usual limits.
pub fn generated_schedules_are_lawful()
    ensures { (seed nodes more : ℕ) → 1 ≤ nodes → nodes ≤ MAX_NODES → nodes + more ≤ MAX_GENERATED_EVENTS
        → IsSchedule Usual (generated seed nodes more) }
{}
