ghost use Rattle.oc_laws_world.specs.Throughout.{Always};
ghost use Rattle.oc_laws_tree.specs.Sessions.{CheckInsAreNumbered, AcksAnswer, AskersAreNew, CheckInsTell, AcksAreKnown, AckedAreWithin};

/// A parent knows the facts that it has acknowledged: after any events, in any order, from any new world.
///
/// No check-in has an ask number above its sender's present one; each acknowledgement answers a check-in with
/// the same ask number and place; a node that asks has neither sent a check-in with its present ask number nor
/// got an acknowledgement. Each fact in a child's log before the place of a check-in is in the check-in, or the
/// parent knows it or a later word; the parent knows each fact before an acknowledged place, or a later word.
/// Places are within the log.
pub fn acknowledged_facts_are_known()
    ensures numbered { Always CheckInsAreNumbered }
    ensures answered { Always AcksAnswer }
    ensures askers { Always AskersAreNew }
    ensures told { Always CheckInsTell }
    ensures known { Always AcksAreKnown }
    ensures within { Always AckedAreWithin }
{}
