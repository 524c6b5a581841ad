ghost use Rattle.std.specs.Prelude.{◌≡◌, ℕ, length};
ghost use Rattle.oc_model.specs.Node.{Durable};
ghost use Rattle.oc_model.specs.Records.{folded};
ghost use Rattle.oc_model.specs.Snapshot.{snapshot};
ghost use Rattle.oc_laws_step.specs.Sound.{IsSoundDurable};

/// A snapshot replaces all records before it: folded over any state of a node in a network of the same size,
/// it gives the sound state from which it was made, with any running number.
pub fn snapshots_stand_for_all()
    ensures { (nodes generation : ℕ) (state any : Durable) → IsSoundDurable nodes state → length any.measures ≡ nodes → folded any (snapshot generation state) ≡ state }
{}
