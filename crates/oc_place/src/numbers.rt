ghost use Rattle.std.specs.Prelude.{◌≡◌, ◌↔◌, None};
ghost use Rattle.oc_model.specs.Numbers.{raise as raised, number_end};

/// The epoch of a root that is to precede a rank of this epoch: the next one, or none after the last
/// number, `u64::MAX`.
pub fn raise(epoch: u64) -> Option<u64>
    ensures value { result ≡ raised epoch }
    ensures end { (result ≡ None) ↔ (epoch ≡ number_end) }
{
    epoch.checked_add(1)
}
