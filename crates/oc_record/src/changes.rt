ghost use Rattle.std.specs.Prelude.{◌≡◌, ◌↔◌, ℕ, true};
ghost use Rattle.oc_model.specs.declared.input.Input.{Input};
ghost use Rattle.oc_model.specs.Lawful.{IsInput, IsHeader};
ghost use Rattle.oc_model.specs.NextWorld.{writes};
ghost use Rattle.oc_model.specs.Node.{Header, Node, Durable, new_node, restarted, started_with};
ghost use Rattle.oc_model.specs.Step.{step};
ghost use Rattle.oc_record.specs.SeeksNoPlace.{SeeksNoPlace};
ghost use Rattle.oc_laws_step.specs.Sound.{IsSound};

/// A step writes a frame exactly if it changes the durable state. This holds for lawful inputs at every
/// node that can be reached: it is sound, and on no descent if it is a chain member or a root.
pub fn a_frame_means_a_change()
    ensures { (n : Node) (i : Input) → IsInput n.control.nodes n.control.me i → IsSound n.control → SeeksNoPlace n.control
        → (writes n i ≡ true) ↔ (((step n i).node.control.kept ≡ n.control.kept) × ((step n i).node.groups ≡ n.groups) → ⊥) }
{}

/// Neither a chain member nor a root is ever on a descent: no new node is on one, and every input and
/// every start keeps this.
pub fn members_and_roots_seek_no_place()
    ensures new { (h : Header) (x : ℕ) → IsHeader h → SeeksNoPlace (new_node h x).control }
    ensures step { (n : Node) (i : Input) → SeeksNoPlace n.control → SeeksNoPlace (step n i).node.control }
    ensures start { (n : Node) → SeeksNoPlace n.control → SeeksNoPlace (restarted n).control }
    ensures recovery { (h : Header) (x : ℕ) (kept : Durable) → IsHeader h → SeeksNoPlace (started_with h x kept) }
{}
