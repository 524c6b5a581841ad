ghost use Rattle.oc_model.specs.declared.event.Event.{Event};
ghost use Rattle.oc_model.specs.Chains.{HasNoCycle};
ghost use Rattle.oc_laws_world.specs.Ranks.{NoRankWorsens, InTreeAreRanked, ToldRanksHold, ParentsPrecede};
ghost use Rattle.oc_laws_world.specs.Throughout.{Always};

/// The ranks after any events, in any order, from any new world.
///
/// No event makes a rank worse. Each node that is joined or acting has a rank. The sender of a yes has the
/// rank that it told or a better one; the same holds for the sender of an acknowledgement of a check-in, where
/// a node without a rank counts as the last of all. And a parent's rank precedes its child's.
pub fn ranks_hold()
    ensures never_worse { Always (λ w. (e : Event) → NoRankWorsens w e) }
    ensures placed { Always InTreeAreRanked }
    ensures told { Always ToldRanksHold }
    ensures parents { Always ParentsPrecede }
{}

/// Parent links never form a cycle: neither after any events, from any new world, nor in any world on the
/// way. A node that is down counts with the mode that it recovers.
pub fn parent_links_form_no_cycle()
    ensures { Always HasNoCycle }
{}
