ghost use Rattle.oc_laws_world.specs.Throughout.{Always};
ghost use Rattle.oc_laws_tree.specs.Grants.{FactsAreGranted, YesesAreGranted, ParentsAreGranted};

/// The parent that a fact names knows the fact, or a later word on its subject: after any events, in any
/// order, from any new world.
///
/// This holds for each fact in a table, in a log or in a check-in that was ever sent. The sender of a yes knows
/// of that lease or a later word, and so does each parent of its child's present lease.
pub fn grants_are_known()
    ensures facts { Always FactsAreGranted }
    ensures yeses { Always YesesAreGranted }
    ensures parents { Always ParentsAreGranted }
{}
