ghost use Rattle.std.specs.Prelude.{◌≡◌, ◌⊎◌, None, []};
ghost use Rattle.oc_model.specs.declared.input.Input.{Input};
ghost use Rattle.oc_base.specs.Groups.{shelf};
ghost use Rattle.oc_model.specs.Node.{Node};
ghost use Rattle.oc_model.specs.Records.{folded};
ghost use Rattle.oc_model.specs.Step.{plan, step};

/// Folding the records of a step gives the durable state after it, at every node and for every input.
/// The records that a step writes, folded over the durable state before it, give the durable state after
/// it. So a step without records does not change the durable control state, and a step that keeps no
/// content does not change the groups; and a step writes records or keeps content, never both.
pub fn folding_is_stepping()
    ensures folds { (n : Node) (i : Input) → (step n i).node.control.kept ≡ folded n.control.kept (step n i).records }
    ensures no_record { (n : Node) (i : Input) → (step n i).records ≡ [] → (step n i).node.control.kept ≡ n.control.kept }
    ensures no_content { (n : Node) (i : Input) → (plan n.control (shelf n.groups) i).keeps ≡ None → (step n i).node.groups ≡ n.groups }
    ensures one_file { (n : Node) (i : Input) → ((plan n.control (shelf n.groups) i).keeps ≡ None) ⊎ ((step n i).records ≡ []) }
{}
