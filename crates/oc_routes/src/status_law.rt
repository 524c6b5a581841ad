//! Laws of the reports of a node.

ghost use Rattle.std.specs.Prelude.{ℕ, List};
ghost use Rattle.oc_base.specs.Names.{IsGroupName};
ghost use Rattle.oc_routes.specs.PlainNames.{IsPlain};
ghost use Rattle.oc_routes.specs.StatusExamples.{AreTold};

/// No byte of a group's name is one that JSON escapes in a text, or Prometheus in a label.
pub fn names_are_plain()
    ensures { (group : List ℕ) → IsGroupName group → IsPlain group }
{}

/// The worked examples compute from the definitions: the reports of nodes, byte by byte.
pub fn examples_are_told()
    ensures { AreTold }
{}
