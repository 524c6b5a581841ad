ghost use Rattle.std.specs.Prelude.{ℕ, ◌≤◌, List};
ghost use Rattle.oc_base.specs.declared.limits.TheConstants.{MAX_LOG_LENGTH};
ghost use Rattle.oc_base.specs.Lawful.{IsNode};
ghost use Rattle.oc_model.specs.declared.input.Input.{Input};
ghost use Rattle.oc_model.specs.declared.record.Record.{Record};
ghost use Rattle.oc_model.specs.Lawful.{IsInput, AreRecords, IsHeader};
ghost use Rattle.oc_model.specs.Node.{Header, Node, Durable, new_node, restarted, started_with};
ghost use Rattle.oc_model.specs.Records.{folded};
ghost use Rattle.oc_model.specs.Step.{step};
ghost use Rattle.oc_laws_step.specs.Frames.{FitsFrame};
ghost use Rattle.oc_laws_step.specs.LawfulNode.{IsLawfulDurable, IsLawfulControl, IsLawfulNode, IsLawfulOutcome};

/// A lawful input leaves a lawful node lawful, and every record that it writes and every message that it
/// sends is lawful: ids are those of nodes, numbers have 64 bits, ranks, rates, hops and times are within
/// their ranges, and lists within their limits. The length of the change log has a condition of its
/// own. The records of such an input fit one frame.
///
/// A new node is lawful, and so is a node that starts from lawful records.
pub fn lawful_nodes_stay_lawful()
    ensures step { (nodes : ℕ) (n : Node) (i : Input) → IsInput nodes n.control.me i → n.control.kept.log.length ≤ MAX_LOG_LENGTH → IsLawfulNode nodes n → IsLawfulOutcome nodes (step n i) }
    ensures frame { (nodes : ℕ) (n : Node) (i : Input) → IsInput nodes n.control.me i → IsLawfulNode nodes n → FitsFrame (step n i).records }
    ensures new { (h : Header) (x : ℕ) → IsHeader h → IsNode h.nodes x → IsLawfulNode h.nodes (new_node h x) }
    ensures start { (nodes : ℕ) (n : Node) → IsLawfulNode nodes n → IsLawfulNode nodes (restarted n) }
    ensures folds { (nodes : ℕ) (kept : Durable) (rs : List Record) → AreRecords nodes rs → IsLawfulDurable nodes kept → IsLawfulDurable nodes (folded kept rs) }
    ensures recovery { (h : Header) (x : ℕ) (kept : Durable) → IsHeader h → IsNode h.nodes x → IsLawfulDurable h.nodes kept → IsLawfulControl h.nodes (started_with h x kept) }
{}
