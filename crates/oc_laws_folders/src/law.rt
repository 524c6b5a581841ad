ghost use Rattle.std.specs.Prelude.{ℕ, List};
ghost use Rattle.oc_folder.specs.Reading.{reading, IsReading};
ghost use Rattle.oc_model.specs.declared.event.Event.{Event};
ghost use Rattle.oc_laws_world.specs.Throughout.{Always, Throughout};
ghost use Rattle.oc_laws_folders.specs.Folders.{AreSnapshots, LoseNothing, GoForward, KeepUp};

/// Folders are snapshots: after any events, in any order, from any new world, and in each world on the way, what any
/// node shows of any group is the folder as it was at the source after some batch, whole.
///
/// The reading of the source's bytes came through that folder at the end of the batch, where nothing was under way. What
/// all of the source's bytes are read as is that folder or a later one. This is so of all that an index of the node's bytes
/// comes through, not only once it has read them all.
pub fn folders_are_snapshots()
    ensures { Always AreSnapshots }
{}

/// Folders go forward: from any world to any later one no node's folder goes back, whatever starts, crashes and stops
/// within a write lie between.
///
/// No node ever loses a byte of a group. So what a node has read in full in the later world has at least as many batches as
/// what an index of it had come to before, and ends no earlier; where it has no more, it is the same. An index that begins
/// anew after a start comes through older folders until it has read all.
pub fn folders_go_forward()
    ensures bytes { Always (λ w. (later : List Event) → Throughout (LoseNothing w) w later) }
    ensures folders { Always (λ w. (later : List Event) → Throughout (GoForward w) w later) }
{}

/// A client that is sent on goes forward too, in each world on the way: where the other node has the bytes up to the end
/// of the batch that the first one shows, what it has read in full is no older.
pub fn clients_sent_on_go_forward()
    ensures { Always KeepUp }
{}

/// Each group has a reading, which is computed: an index that is fed the blocks that it wants comes to an end.
pub fn groups_are_read()
    ensures { (bytes : List ℕ) → IsReading bytes (reading bytes) }
{}
