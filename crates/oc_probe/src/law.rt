ghost use Rattle.std.specs.Prelude.{◌≡◌, ℕ, List};
ghost use Rattle.oc_probe.specs.Rates.{IsAtPlace};

/// Rates have exactly one median, since one number is at each place.
pub fn rates_have_one_median()
    ensures { (place : ℕ) (rates : List ℕ) (m n : ℕ) → IsAtPlace place rates m → IsAtPlace place rates n → m ≡ n }
{}
