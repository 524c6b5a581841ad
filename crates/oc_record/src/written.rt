ghost use Rattle.std.specs.Prelude.{◌≡◌, ℕ, ◌≤◌, Ok, List, length};
ghost use Rattle.oc_base.specs.declared.limits.TheConstants.{MAX_FRAME_BYTES, MAX_LOG_LENGTH};
ghost use Rattle.oc_model.specs.declared.input.Input.{Input};
ghost use Rattle.oc_model.specs.declared.record.Record.{Record};
ghost use Rattle.oc_model.specs.Lawful.{IsInput};
ghost use Rattle.oc_model.specs.Node.{Node};
ghost use Rattle.oc_model.specs.Step.{step};
ghost use Rattle.oc_laws_step.specs.LawfulNode.{IsLawfulNode};
ghost use Rattle.oc_laws_step.specs.Sizes.{total, size_of};
ghost use Rattle.oc_record.specs.Reading.{decoded};
ghost use Rattle.oc_record.specs.Spelling.{HaveSpellings, records_bytes};

use crate::spellings_are_read;
use oc_laws_step::lawful_nodes_stay_lawful;

/// The records that a lawful node writes for a lawful input have a spelling, are read back from it, and
/// fit one frame.
pub fn what_lawful_nodes_write_is_read()
    ensures spelled { (nodes : ℕ) (n : Node) (i : Input) → IsInput nodes n.control.me i → n.control.kept.log.length ≤ MAX_LOG_LENGTH → IsLawfulNode nodes n
        → HaveSpellings (step n i).records }
    ensures read { (nodes : ℕ) (n : Node) (i : Input) → IsInput nodes n.control.me i → n.control.kept.log.length ≤ MAX_LOG_LENGTH → IsLawfulNode nodes n
        → decoded nodes (records_bytes (step n i).records) ≡ Ok (step n i).records }
    ensures fits { (nodes : ℕ) (n : Node) (i : Input) → IsInput nodes n.control.me i → IsLawfulNode nodes n
        → length (records_bytes (step n i).records) ≤ MAX_FRAME_BYTES }
    ensures sizes { (list : List Record) → length (records_bytes list) ≡ total size_of list }
{
    lawful_nodes_stay_lawful();
    spellings_are_read();
}
