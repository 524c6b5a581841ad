ghost use Rattle.std.specs.Prelude.{List};
ghost use Rattle.oc_model.specs.declared.event.Event.{Event};
ghost use Rattle.oc_model.specs.NextWorld.{world_after};
ghost use Rattle.oc_model.specs.Node.{Header};
ghost use Rattle.oc_model.specs.World.{new_world};
ghost use Rattle.oc_laws_tree.specs.Settling.{SettleSettles, SettleTells, SettleKeepsRoot, SettleLists, SettleTakes, FiveStepsTakeFew};

/// Settle settles a ready world: after any events, from any new world.
///
/// After settle all leases are those of the live tree, nothing waits to be told, and each parent knows its
/// children's last own numbers. So the one root, which is the same as before, lists exactly the live tree,
/// with each node's own number and client count.
pub fn ready_worlds_settle()
    ensures settled { (h : Header) (events : List Event) → SettleSettles (world_after (new_world h) events) }
    ensures told { (h : Header) (events : List Event) → SettleTells (world_after (new_world h) events) }
    ensures root { (h : Header) (events : List Event) → SettleKeepsRoot (world_after (new_world h) events) }
    ensures listed { (h : Header) (events : List Event) → SettleLists (world_after (new_world h) events) }
{}

/// The number of acts that settle tells: three for each node that is up, six more for each of these with a
/// parent, and three for each 64 certificates, or part of 64, that wait at a node at its turn in step 6. So
/// each check-in is acknowledged. Without step 6 it is at most nine acts for each node that is up, also in a
/// world that is not ready.
pub fn settle_takes_few_acts()
    ensures number { (h : Header) (events : List Event) → SettleTakes (world_after (new_world h) events) }
    ensures five_steps { (h : Header) (events : List Event) → FiveStepsTakeFew (world_after (new_world h) events) }
{}
