ghost use Rattle.std.specs.Prelude.{◌≡◌, ℕ, ◌≤◌, List, replicate};
ghost use Rattle.oc_model.specs.Measures.{reading_of};
ghost use Rattle.oc_model.specs.Node.{no_reading};
ghost use Rattle.oc_updown.specs.Puts.{Put, after_puts, last_put, OfPeers};

/// After any sequence of puts, the reading of a peer is the one that was put last for it, or none if none
/// was put.
pub fn what_was_put_last_is_got()
    ensures { (nodes : ℕ) (puts : List Put) (x : ℕ) → 1 ≤ x → x ≤ nodes → OfPeers puts
        → reading_of (after_puts (replicate nodes no_reading) puts) x ≡ last_put x no_reading puts }
{}
