ghost use Rattle.oc_model.specs.Decisions.{DecisionsCompute};

/// Checks worked examples of the decisions of a node, one by one, by their definitions.
pub fn decisions_compute()
    ensures { DecisionsCompute }
{}
