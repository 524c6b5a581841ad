ghost use Rattle.std.specs.Prelude.{◌≡◌, ◌↔◌, ℕ, List};
ghost use Rattle.oc_base.specs.declared.cert.Cert.{Cert};
ghost use Rattle.oc_model.specs.Chains.{IsRoot};
ghost use Rattle.oc_model.specs.ClaimsTree.{table_of, IsExplained, IsInformed, HasMissingCause, HasWrongCause, IsWalk, IsTopmostFalse};
ghost use Rattle.oc_model.specs.Ready.{IsSettled};
ghost use Rattle.oc_model.specs.Table.{IsListed};
ghost use Rattle.oc_model.specs.World.{World};
ghost use Rattle.oc_laws_step.specs.Sound.{IsTable};
ghost use Rattle.oc_laws_world.specs.Numbers.{HaveOnePeer, AskNumbersAreBelow};
ghost use Rattle.oc_laws_world.specs.Throughout.{Always};
ghost use Rattle.oc_laws_tree.specs.Clients.{HaveOneCount, OwnNumbersAreBelow};
ghost use Rattle.oc_laws_tree.specs.Coverage.{ChildrenAreCovered};
ghost use Rattle.oc_laws_tree.specs.Grants.{FactsAreGranted};
ghost use Rattle.oc_laws_tree.specs.Listing.{SettledListsExactly};

/// Every missing or wrong line of an acting root's table has a cause that is still there: after any events, from any
/// new world, and in every world on the way.
///
/// For each root that is up and each other node, the root's table has the first link of the node's live way
/// to the root, or there is a cause. If the node is missing or in a wrong place, some node on its way has
/// ended the lease of the one below, or a certificate about one of them waits further up. If it is listed and
/// should not be, the topmost false link of the listed way still has its lease, or a certificate about that
/// child waits above.
pub fn every_line_is_explained()
    ensures { Always IsExplained }
{}

/// If a root's line of a node is right, its count of that node's clients is right or has a cause: after any
/// events, from any new world, and in every world on the way.
///
/// The cause is one for which the line could be missing, or that the node has not told its parent its last
/// own number yet.
pub fn every_count_is_informed()
    ensures { Always IsInformed }
{}

/// A settled tree is listed exactly: after any events, from any new world, and in every world on the way.
///
/// In a settled world the root's table has the first link of each node's live way, and lists no other node, as
/// one that is down.
pub fn settled_trees_are_listed_exactly()
    ensures { Always SettledListsExactly }
{}

/// The origin of the explanations: in a world of ascending tables they follow from the laws of ask numbers,
/// of grants and of coverage, and for counts also from that of own numbers.
pub fn explanations_follow()
    ensures lines { (w : World) → ((x : ℕ) → IsTable (table_of w x)) → HaveOnePeer w → AskNumbersAreBelow w → FactsAreGranted w → ChildrenAreCovered w → IsExplained w }
    ensures counts { (w : World) → ((x : ℕ) → IsTable (table_of w x)) → HaveOnePeer w → AskNumbersAreBelow w → FactsAreGranted w → ChildrenAreCovered w
        → HaveOneCount w → OwnNumbersAreBelow w → IsInformed w }
{}

/// A settled world has no cause for a wrong line, so lines that are explained are right there.
pub fn settled_trees_have_no_cause()
    ensures missing { (w : World) (r x : ℕ) → IsSettled w → HasMissingCause w r x → ⊥ }
    ensures wrong { (w : World) (r x : ℕ) → IsSettled w → IsRoot w r → HasWrongCause w r x → ⊥ }
    ensures exact { (w : World) → IsExplained w → SettledListsExactly w }
{}

/// The terms of a cause: a walk up a table from a node other than the root exists exactly if the table
/// lists the node, and a walk has at most one topmost false link.
pub fn walks_are_listings()
    ensures walks { (table : List Cert) (r x : ℕ) → IsListed table r x ↔ ((x ≡ r → ⊥) × ((c : List ℕ) × IsWalk table x r c)) }
    ensures one_topmost { (w : World) (table : List Cert) (c : List ℕ) (v y u z : ℕ) → IsTopmostFalse w table c v y → IsTopmostFalse w table c u z → (v ≡ u) × (y ≡ z) }
{}
