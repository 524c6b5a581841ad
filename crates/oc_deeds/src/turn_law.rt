//! Laws of the definitions of turns.

ghost use Rattle.std.specs.Prelude.{◌≡◌, ℕ, []};
ghost use Rattle.oc_model.specs.Node.{Node};
ghost use Rattle.oc_model.specs.declared.input.Input.TheVariants.{Measured};
ghost use Rattle.oc_deeds.specs.Brief.{told_of};
ghost use Rattle.oc_deeds.specs.BriefExamples.{AreBrief};
ghost use Rattle.oc_deeds.specs.TurnExamples.{AreTurns};
ghost use Rattle.oc_deeds.specs.declared.log.Log.{Log};

/// Worked examples of turns and their parts come out as they should. They are computed.
pub fn turns_compute()
    ensures { AreTurns }
{}

/// Worked examples of lines for people come out as they should, and no line tells of a measure.
pub fn brief_lines_compute()
    ensures examples { AreBrief }
    ensures measures { (log : Log) (n : Node) (peer rate hops : ℕ) → told_of log n (Measured peer rate hops) ≡ [] }
{}
