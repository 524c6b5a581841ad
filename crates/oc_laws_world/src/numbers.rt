ghost use Rattle.oc_laws_world.specs.Numbers.{HaveOnePeer, AskNumbersAreBelow};
ghost use Rattle.oc_laws_world.specs.Throughout.{Always};

/// One ask number of a node goes with at most one peer, and is at most the node's present one: after any events,
/// in any order, from any new world.
///
/// The peer of a number is the one that the node asks or is joined to by it, the receiver of an ask of that
/// number, and the parent that any fact with that number names: in a table, in a log, or in a check-in that
/// was ever sent.
pub fn ask_numbers_have_one_peer()
    ensures one_peer { Always HaveOnePeer }
    ensures below { Always AskNumbersAreBelow }
{}
