ghost use Rattle.std.specs.Prelude.{◌≡◌, ℕ, ◌<◌, Some, None, List};
ghost use Rattle.oc_base.specs.declared.cert.Cert.{Cert};
ghost use Rattle.oc_model.specs.Selected.{selected};
ghost use Rattle.oc_updown.specs.Server.{IsServer, IsBestServer};

/// The selected node is past the chain, listed, and the best of these; and none is selected only if there
/// is no such node.
pub fn the_freest_listed_is_selected()
    ensures some { (t : List Cert) (me chain : ℕ) (areas counts : List ℕ) (area k : ℕ)
        → selected t me chain areas counts area ≡ Some k → IsBestServer t me chain areas counts area k }
    ensures none { (t : List Cert) (me chain : ℕ) (areas counts : List ℕ) (area : ℕ)
        → selected t me chain areas counts area ≡ None → (x : ℕ) → ¬ IsServer t me chain x }
{}
