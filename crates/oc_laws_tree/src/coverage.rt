ghost use Rattle.oc_laws_world.specs.Throughout.{Always};
ghost use Rattle.oc_laws_tree.specs.Coverage.{ChildrenAreCovered, RestartsKeepLogs, SnapshotsKeepLogs};

/// A parent knows each fact that its child knows, unless the fact waits in the child's log: after any events,
/// in any order, from any new world.
///
/// Each fact in the table of a joined node is covered by its parent's table, or by the facts that wait in its
/// own log. Starts, crashes and snapshots do not change a log: its length, the number of acknowledged facts,
/// and the waiting ones. A stop within an act leaves the log unchanged, or as the act leaves it.
pub fn children_are_covered()
    ensures covered { Always ChildrenAreCovered }
    ensures restarts { Always RestartsKeepLogs }
    ensures snapshots { Always SnapshotsKeepLogs }
{}
