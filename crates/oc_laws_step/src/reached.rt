ghost use Rattle.std.specs.Prelude.{ℕ};
ghost use Rattle.oc_model.specs.declared.input.Input.{Input};
ghost use Rattle.oc_model.specs.Node.{Header, Node, Durable, new_node, restarted, started_with};
ghost use Rattle.oc_model.specs.Step.{step};
ghost use Rattle.oc_laws_step.specs.Sound.{IsSound, IsSoundDurable};

/// A new node is sound, and every input and every start leaves a sound node sound.
///
/// A node is sound if its table has one row per subject, ascending; a joined node has asked and has a rank,
/// and its table knows all that waits in its log; any other node has an empty log; an own count has an own
/// number; there are at most 1,000 ancestors; and each list by number has an item for each node.
pub fn reached_nodes_are_sound()
    ensures new { (h : Header) (x : ℕ) → IsSound (new_node h x).control }
    ensures step { (n : Node) (i : Input) → IsSound n.control → IsSound (step n i).node.control }
    ensures start { (n : Node) → IsSound n.control → IsSound (restarted n).control }
    ensures recovery { (h : Header) (x : ℕ) (kept : Durable) → IsSoundDurable h.nodes kept → IsSound (started_with h x kept) }
{}
