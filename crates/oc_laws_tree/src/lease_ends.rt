ghost use Rattle.oc_laws_world.specs.Throughout.{Always};
ghost use Rattle.oc_laws_tree.specs.LeaseEnds.{LeaseEndsLieAhead};

/// Lease ends are in the future: after any events, from any new world, and in every world on the way.
///
/// Each lease end of a leased child of a node that is up, in seconds, is later than that node's clock. So a
/// tick at the present second of the clock ends no lease.
pub fn lease_ends_lie_ahead()
    ensures { Always LeaseEndsLieAhead }
{}
