ghost use Rattle.std.specs.Prelude.{◌≡◌, ℕ, ◌≤◌, Bool, true, false, Option, Some, None, IfSome, List, length};
ghost use Rattle.oc_base.specs.declared.group.Group.{Group};
ghost use Rattle.oc_base.specs.declared.shelf.Shelf.{Shelf};
ghost use Rattle.oc_base.specs.Groups.{shelf};
ghost use Rattle.oc_base.specs.Shelves.{IsShelf};
ghost use Rattle.oc_content.specs.ContentFile.{with_entry};
ghost use Rattle.oc_keep.specs.Puts.{CanKeep, CanPut, CanWant, entry_for};
ghost use Rattle.oc_model.specs.declared.input.Input.{Input};
ghost use Rattle.oc_model.specs.Lawful.{IsInput};
ghost use Rattle.oc_model.specs.Node.{Control};
ghost use Rattle.oc_model.specs.Step.{Piece, kept_at, piece_of, plan};

/// The piece that a step keeps of its input can be put to the content log: the log's limits are those of the step's
/// rule, so the log refuses no piece that a step keeps, and changes the groups as the step does.
pub fn prepare_refuses_nothing_that_is_kept()
    ensures keeps { (nodes : ℕ) (n : Control) (lines : List Shelf) (i : Input) → IsInput nodes n.me i → IsShelf lines
        → CanKeep lines (piece_of i) (plan n lines i).keeps (plan n lines i).seals }
    ensures entry { (groups : List Group) (p : Piece) (at : ℕ) (closes : Bool) → CanPut (shelf groups) p at closes
        → kept_at (Some at) groups p closes ≡ with_entry (entry_for (shelf groups) p at closes) groups }
    ensures wants { (n : Control) (lines : List Shelf) (i : Input) → IsShelf lines
        → CanWant lines (plan n lines i).wants }
    ensures few { (n : Control) (lines : List Shelf) (i : Input)
        → IfSome (plan n lines i).wants (λ w. w.count ≤ n.chunk) }
{}
