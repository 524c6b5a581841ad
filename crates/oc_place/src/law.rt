ghost use Rattle.std.specs.Prelude.{◌≡◌, ◌↔◌, ℕ, List, Option, Some, None};
ghost use Rattle.oc_base.specs.declared.rank.Rank.{Rank};
ghost use Rattle.oc_base.specs.declared.refusal.Refusal.{Refusal};
ghost use Rattle.oc_model.specs.Adoption.{Host, adoption_refusal};
ghost use Rattle.oc_model.specs.Choice.{chosen, ask_order};
ghost use Rattle.oc_model.specs.Numbers.{IsAmong};
ghost use Rattle.oc_model.specs.declared.place.Candidate.{Candidate};
ghost use Rattle.oc_place.specs.Causes.{HasCause, IsFirst};
ghost use Rattle.oc_place.specs.Chosen.{IsSuitable, IsIdOfBest};
ghost use Rattle.oc_place.specs.Asked.{IsOnce, MayBeAsked, IsNotLeftOut};

/// The chosen candidate is suitable, and no suitable one has fewer hops, or as many and a smaller id; none
/// is chosen only if none is suitable.
pub fn the_nearest_suitable_is_chosen()
    ensures some { (direct : ℕ) (cs : List Candidate) (k : ℕ)
        → chosen direct cs ≡ Some k → IsIdOfBest direct cs k }
    ensures none { (direct : ℕ) (cs : List Candidate)
        → chosen direct cs ≡ None → (c : Candidate) → IsAmong c cs → ¬ IsSuitable direct c }
{}

/// A refusal has a cause, and no earlier one has; without a refusal, none has a cause.
pub fn the_first_cause_refuses()
    ensures refused { (h : Host) (x : ℕ) (r : Option Rank) (why : Refusal)
        → adoption_refusal h x r ≡ Some why → IsFirst h x r why }
    ensures adopted { (h : Host) (x : ℕ) (r : Option Rank) (why : Refusal)
        → adoption_refusal h x r ≡ None → ¬ HasCause h x r why }
{}

/// Each node that may be asked is asked once, except for the asker and the node that is left out; no other
/// node is asked.
pub fn each_is_asked_once()
    ensures once { (me chain : ℕ) (ancestors : List ℕ) (without : Option ℕ)
        → IsOnce (ask_order me chain ancestors without) }
    ensures asked { (me chain : ℕ) (ancestors : List ℕ) (without : Option ℕ) (x : ℕ)
        → IsAmong x (ask_order me chain ancestors without)
        ↔ (MayBeAsked me chain ancestors x × IsNotLeftOut me without x) }
{}
