ghost use Rattle.oc_laws_world.specs.Throughout.{Always};
ghost use Rattle.oc_laws_tree.specs.Clients.{HaveOneCount, ZeroCountsNone, OwnNumbersAreBelow};

/// One own number of a node goes with at most one count of clients, the number 0 with 0 clients, and no such
/// number is above the node's present one: after any events, in any order, from any new world.
///
/// The count of a number is the one of the node's own pair, of any check-in of the node, and of any fact
/// about it: in a table, in a log, or in a check-in that was ever sent.
pub fn own_numbers_have_one_count()
    ensures one_count { Always HaveOneCount }
    ensures zero { Always ZeroCountsNone }
    ensures below { Always OwnNumbersAreBelow }
{}
