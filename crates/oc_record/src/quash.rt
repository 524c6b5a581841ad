ghost use Rattle.std.specs.Prelude.{◌≡◌, ℕ, List};
ghost use Rattle.oc_base.specs.declared.cert.Cert.{Cert};
ghost use Rattle.oc_model.specs.declared.input.Input.{Input};
ghost use Rattle.oc_model.specs.declared.mode.Mode.TheVariants.{Joined};
ghost use Rattle.oc_model.specs.Node.{Node};
ghost use Rattle.oc_model.specs.Step.{step};
ghost use Rattle.oc_record.specs.Quash.{IsQuashed};

/// A certificate that is no news goes no further, as in the Overcast paper (section 4.3).
///
/// While a node has one parent at one ask number, its change log takes exactly the certificates that
/// change its table, in their order.
pub fn what_is_no_news_goes_no_further()
    ensures { (n : Node) (i : Input) (p q : ℕ) → n.control.kept.mode ≡ Joined p → (step n i).node.control.kept.mode ≡ Joined q
        → (step n i).node.control.kept.seq ≡ n.control.kept.seq
        → (taken : List Cert) × IsQuashed n.control.kept (step n i).node.control.kept taken }
{}
