//! The law of the node whose areas stay as they are.

ghost use Rattle.std.specs.Prelude.{◌≡◌, List};
ghost use Rattle.oc_keep.specs.Trials.{after_inputs};
ghost use Rattle.oc_model.specs.Node.{Node};
ghost use Rattle.oc_deeds.specs.Changes.{KeepAreas, after_changes, changes_of};
ghost use Rattle.oc_deeds.specs.Deeds.{Deed, inputs_of};

/// Deeds that leave the areas of a node as they are change it by their inputs alone. So a record, which tells these, tells all
/// changes of the node that writes it.
pub fn records_tell_all_changes()
    ensures { (n : Node) (deeds : List Deed) → KeepAreas n.control deeds → after_changes n (changes_of deeds) ≡ after_inputs n (inputs_of deeds) }
{}
