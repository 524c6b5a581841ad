ghost use Rattle.std.specs.Prelude.{◌≡◌, ℕ, ◌<◌, ◌≤◌};
ghost use Rattle.oc_model.specs.declared.answer.Answer.TheVariants.{Redirect};
ghost use Rattle.oc_model.specs.declared.input.Input.{Input};
ghost use Rattle.oc_model.specs.Node.{Node};
ghost use Rattle.oc_model.specs.Step.{step};
ghost use Rattle.oc_model.specs.Table.{IsListed};
ghost use Rattle.oc_laws_world.specs.Redirects.{AsksForHeld};

/// Only a chain member sends a client on, and only to a node past the chain that its own table lists below
/// it. It does so only for a client that asks for a group which it holds. This holds
/// for every step of every node.
pub fn only_chain_nodes_redirect()
    ensures client { (n : Node) (i : Input) (k : ℕ) → (step n i).answer ≡ Redirect k → AsksForHeld n i }
    ensures chain { (n : Node) (i : Input) (k : ℕ) → (step n i).answer ≡ Redirect k → n.control.me ≤ n.control.chain }
    ensures listed { (n : Node) (i : Input) (k : ℕ) → (step n i).answer ≡ Redirect k → IsListed n.control.kept.table n.control.me k }
    ensures past { (n : Node) (i : Input) (k : ℕ) → (step n i).answer ≡ Redirect k → n.control.chain < k }
{}
