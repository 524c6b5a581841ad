ghost use Rattle.oc_merge.specs.Examples.{AreRead, AreThere};

/// The worked examples, read by the definitions.
pub fn examples_are_read()
    ensures { AreRead }
{}

/// A line before a start: one whose input was not taken, one whose input was taken, and one for
/// which the start tells no files.
pub fn missed_lines_are_left_out()
    ensures { AreThere }
{}
