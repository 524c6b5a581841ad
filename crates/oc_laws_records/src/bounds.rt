ghost use Rattle.std.specs.Prelude.{◌≡◌, ℕ, Ok, List};
ghost use Rattle.oc_merge.specs.declared.merge_end.MergeEnd.{MergeEnd};
ghost use Rattle.oc_merge.specs.Merging.{IsMergeOf};
ghost use Rattle.oc_merge.specs.Reading.{records_of};
ghost use Rattle.oc_merge.specs.Recorded.{records_there};
ghost use Rattle.oc_merge.specs.Told.{Records};
ghost use Rattle.oc_model.specs.Node.{Node};
ghost use Rattle.oc_schedule.specs.Printing.{script_text};
ghost use Rattle.oc_schedule.specs.Script.{Script};
ghost use Rattle.oc_laws_records.specs.Bounds.{IsNoLonger};

/// The schedule of a merge, as text, has no more bytes and no more lines than the records.
pub fn merges_are_no_longer()
    ensures { (digest : Node → List ℕ) (bytes : List ℕ) (r : Records) (s : Script) (end : MergeEnd) → records_of bytes ≡ Ok r
        → IsMergeOf digest (records_there digest r) s end → IsNoLonger (script_text s) bytes }
{}
