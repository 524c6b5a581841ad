ghost use Rattle.std.specs.Prelude.{◌≡◌, ◌↔◌, ℕ, true, List};
ghost use Rattle.oc_base.specs.declared.cert.Cert.{Cert};
ghost use Rattle.oc_model.specs.Table.{IsListed, is_listed};

/// Proves that a listing is exact: a walk with as many steps as the table has rows finds whether a node is listed.
pub fn listings_are_exact()
    ensures { (table : List Cert) (root node : ℕ) → (is_listed table root node ≡ true) ↔ IsListed table root node }
{}
