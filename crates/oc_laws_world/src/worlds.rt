ghost use Rattle.std.specs.Prelude.{◌≡◌, ◌↔◌, ℕ, ◌+◌, ◌≤◌, Some, true, List};
ghost use Rattle.oc_model.specs.declared.event.Event.{Event};
ghost use Rattle.oc_model.specs.Chains.{IsTrueChain, chain_to};
ghost use Rattle.oc_model.specs.Heal.{IsAble, is_able, IsPlaced, is_placed};
ghost use Rattle.oc_model.specs.Lawful.{IsEvent};
ghost use Rattle.oc_base.specs.declared.limits.TheConstants.{MAX_RATE};
ghost use Rattle.oc_model.specs.NextWorld.{next_world};
ghost use Rattle.oc_base.specs.Stops.{IsKeptNew, is_kept_new};
ghost use Rattle.oc_model.specs.Ready.{IsReady, is_ready, IsSettled, is_settled};
ghost use Rattle.oc_model.specs.World.{World, ids};
ghost use Rattle.oc_model.specs.WorldBounds.{IsDistinct, IsLater, IsWithinLimits, AreBefore};

/// The changes of a world by any event: the ids stay, sent messages stay sent, no node exceeds its limits of
/// groups and bytes, and no clock goes more than 60 seconds past the latest clock or the latest time that a
/// tick may tell.
pub fn events_go_on()
    ensures ids { (w : World) (e : Event) → ids (next_world w e) ≡ ids w }
    ensures net { (w : World) (e : Event) → IsLater w (next_world w e) }
    ensures limits { (w : World) (e : Event) → IsWithinLimits w → IsWithinLimits (next_world w e) }
    ensures clocks { (w : World) (e : Event) (nodes t : ℕ) → IsDistinct (ids w) → IsEvent nodes e → MAX_RATE ≤ t → AreBefore t w → AreBefore (t + 60) (next_world w e) }
{}

/// A node has at most one true chain, and the definitions compute it.
pub fn chains_are_computed()
    ensures computed { (w : World) (x r : ℕ) (c : List ℕ) → (chain_to w r x ≡ Some c) ↔ IsTrueChain w x r c }
    ensures one { (w : World) (x r s : ℕ) (c d : List ℕ) → IsTrueChain w x r c → IsTrueChain w x s d → c ≡ d }
{}

/// The tests by which settle, heal and a stop decide, and the test of a settled world, agree with their
/// definitions.
pub fn tests_decide()
    ensures ready { (w : World) → (is_ready w ≡ true) ↔ IsReady w }
    ensures able { (w : World) → (is_able w ≡ true) ↔ IsAble w }
    ensures placed { (w : World) (m x : ℕ) → (is_placed w m x ≡ true) ↔ IsPlaced w m x }
    ensures settled { (w : World) → (is_settled w ≡ true) ↔ IsSettled w }
    ensures kept_new { (calls image : ℕ) → (is_kept_new calls image ≡ true) ↔ IsKeptNew calls image }
{}
