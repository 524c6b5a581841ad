ghost use Rattle.oc_model.specs.declared.input.Input.{Input};
ghost use Rattle.oc_model.specs.Node.{Node};
ghost use Rattle.oc_model.specs.Step.{step};
ghost use Rattle.oc_laws_step.specs.Frames.{IsFew, IsSmall, FitsFrame};

/// The records of one input fit one frame: at most 4,096 records, and at most 1,048,576 bytes.
///
/// This holds for at most 1,024 nodes, a table with at most as many rows as there are nodes, and check-ins
/// with at most 64 certificates.
pub fn steps_fit_a_frame()
    ensures { (n : Node) (i : Input) → IsSmall n.control → IsFew i → FitsFrame (step n i).records }
{}
