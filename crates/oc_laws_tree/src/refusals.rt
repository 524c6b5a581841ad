ghost use Rattle.std.specs.Prelude.{◌≡◌, ◌↔◌, ℕ, Some, length};
ghost use Rattle.oc_model.specs.declared.event.Event.TheVariants.{Settle, Heal};
ghost use Rattle.oc_model.specs.declared.word.Word.TheVariants.{Unready, Settled, Healed};
ghost use Rattle.oc_model.specs.Heal.{IsAble, leader, heals};
ghost use Rattle.oc_model.specs.NextWorld.{next_world, word_of};
ghost use Rattle.oc_model.specs.Ready.{IsReady};
ghost use Rattle.oc_model.specs.Settle.{settles};
ghost use Rattle.oc_model.specs.World.{World};

/// Settle is refused exactly if the world is not ready, and then nothing changes. In a ready world it plays
/// its steps, and tells the number of their acts.
pub fn unready_worlds_refuse_settle()
    ensures refused { (w : World) → (word_of w Settle ≡ Unready) ↔ (IsReady w → ⊥) }
    ensures unchanged { (w : World) → (IsReady w → ⊥) → next_world w Settle ≡ w }
    ensures does { (w : World) → IsReady w → next_world w Settle ≡ (settles w).world }
    ensures tells { (w : World) → IsReady w → word_of w Settle ≡ Settled (length (settles w).acts) }
{}

/// Heal is refused exactly if the world is not able, and then nothing changes. An able world has a leader, the
/// least chain member that is up; there heal plays its steps, and tells the number of their acts.
pub fn unable_worlds_refuse_heal()
    ensures refused { (w : World) → (word_of w Heal ≡ Unready) ↔ (IsAble w → ⊥) }
    ensures unchanged { (w : World) → (IsAble w → ⊥) → next_world w Heal ≡ w }
    ensures leads { (w : World) → IsAble w → (m : ℕ) × (leader w ≡ Some m) }
    ensures does { (w : World) (m : ℕ) → IsAble w → leader w ≡ Some m → next_world w Heal ≡ (heals m w).world }
    ensures tells { (w : World) (m : ℕ) → IsAble w → leader w ≡ Some m → word_of w Heal ≡ Healed (length (heals m w).acts) }
{}
