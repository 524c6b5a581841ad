ghost use Rattle.oc_replay.specs.Examples.{AreTold};

/// The reports of the worked examples, computed byte by byte from the definitions.
pub fn examples_are_told()
    ensures { AreTold }
{}
