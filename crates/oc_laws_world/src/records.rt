ghost use Rattle.std.specs.Prelude.{◌≡◌, ◌↔◌, ℕ, List, [], ◌∷◌, ◌++◌};
ghost use Rattle.oc_base.specs.Lawful.{IsNode};
ghost use Rattle.oc_model.specs.declared.event.Event.{Event};
ghost use Rattle.oc_model.specs.declared.message.Message.{Message};
ghost use Rattle.oc_model.specs.NextWorld.{world_after};
ghost use Rattle.oc_model.specs.declared.input.Input.{Input};
ghost use Rattle.oc_model.specs.Node.{Header, Node, restarted};
ghost use Rattle.oc_model.specs.Step.{step};
ghost use Rattle.oc_model.specs.Numbers.{IsAmong};
ghost use Rattle.oc_model.specs.World.{new_world, node};
ghost use Rattle.oc_laws_world.specs.ExamplesMerges.{Copying, CopyingAt2, CopyingScheduled, CopyingHeld, MissedLeftOut, TakenKept};
ghost use Rattle.oc_laws_world.specs.MergedLaws.{AllHold};
ghost use Rattle.oc_laws_world.specs.Merges.{Entry, Line, line, IsMerge, CanFollow, AreEventsOf, IsScheduleOf, WasSent, after_entries, entries_of, own_fold};
ghost use Rattle.oc_laws_world.specs.Missed.{Deed, Started, after_deeds, record_of, without_missed, StartsFit, HaveSameFiles, IsStory};
ghost use Rattle.oc_laws_world.specs.Taking.{Records, CanBeTaken, IsTaking, IsFull, IsBeginning, IsFirst, IsInOrder};

use crate::{
    ask_numbers_have_one_peer, content_stays_true, parent_links_form_no_cycle, ranks_hold,
};

/// The records of running nodes are a schedule.
///
/// A merge has the entries of each node in their order, starts and inputs, the first of them a start; and
/// each message comes after it was sent, to its receiver, by a step of the merge. Every merge has a
/// schedule: its inputs, with each delivery named by its place in the net, and its starts, with a crash
/// before each but the first of a node. Every schedule of a merge leads to a world in which each node is the
/// fold of its own entries, and the net has exactly the messages that their steps sent.
///
/// So every law about lists of events holds for a recorded network: the laws of this crate hold in each
/// world on the way. A merge goes on line by line, and its schedule with it.
pub fn records_are_schedules()
    ensures scheduled { (h : Header) (ls : List Line) → IsMerge h ls → (es : List Event) × IsScheduleOf (new_world h) ls es }
    ensures folds { (h : Header) (ls : List Line) (es : List Event) → IsMerge h ls → IsScheduleOf (new_world h) ls es → (x : ℕ) → IsNode h.nodes x → node (world_after (new_world h) es) x ≡ own_fold h ls x }
    ensures net { (h : Header) (ls : List Line) (es : List Event) → IsMerge h ls → IsScheduleOf (new_world h) ls es → (m : Message) → IsAmong m (world_after (new_world h) es).net ↔ WasSent h ls m }
    ensures laws { (h : Header) (ls : List Line) (es : List Event) → IsMerge h ls → IsScheduleOf (new_world h) ls es → AllHold (new_world h) es }
    ensures one_more { (h : Header) (ls : List Line) (l : Line) → IsMerge h ls → IsNode h.nodes l.node → CanFollow h ls l.node l.entry → IsMerge h (ls ++ l ∷ []) }
    ensures its_events { (h : Header) (ls : List Line) (l : Line) (es more : List Event) → IsScheduleOf (new_world h) ls es
        → AreEventsOf (world_after (new_world h) es) l.node l.entry more → IsScheduleOf (new_world h) (ls ++ l ∷ []) (es ++ more) }
{
    content_stays_true();
    ranks_hold();
    parent_links_form_no_cycle();
    ask_numbers_have_one_peer();
}

/// Checks worked examples: two records, their merge and its schedule, and a record with a missed input.
pub fn merges_compute()
    ensures merge { Copying }
    ensures entries { CopyingAt2 }
    ensures scheduled { CopyingScheduled }
    ensures held { CopyingHeld }
    ensures missed { MissedLeftOut }
    ensures taken { TakenKept }
{}

/// A merge that takes lines of records until no more line can be taken has taken the greatest part of each
/// record, in any order of attempts.
///
/// Taking a line never prevents a line of another node. The lines taken of each node are a prefix of its
/// record, and together they are a merge for [`records_are_schedules`]. Exactly one of these merges always
/// takes the first line of the input that can be taken.
pub fn merging_takes_the_most()
    ensures stays { (r : Records) (taken : List Line) (x y : ℕ) (d e : Entry) → (x ≡ y → ⊥) → CanBeTaken r taken y e → CanBeTaken r (taken ++ line x d ∷ []) y e }
    ensures front { (r : Records) (taken : List Line) → IsTaking r taken → (x : ℕ) → IsBeginning (entries_of x taken) (entries_of x r.lines) }
    ensures merge { (r : Records) (taken : List Line) → IsTaking r taken → IsMerge r.header taken }
    ensures most { (r : Records) (taken other : List Line) → IsTaking r taken → IsFull r taken → IsTaking r other → (x : ℕ) → IsBeginning (entries_of x other) (entries_of x taken) }
    ensures one { (r : Records) (a b : List Line) → IsTaking r a → IsFull r a → IsTaking r b → IsFull r b → (x : ℕ) → entries_of x a ≡ entries_of x b }
    ensures ordered { (r : Records) (taken : List Line) → IsInOrder r taken → IsTaking r taken }
    ensures one_more { (r : Records) (taken : List Line) (place : ℕ) (l : Line) → IsInOrder r taken → IsFirst r taken place l → IsInOrder r (taken ++ l ∷ []) }
    ensures one_order { (r : Records) (a b : List Line) → IsInOrder r a → IsFull r a → IsInOrder r b → IsFull r b → a ≡ b }
{}

/// The lines of inputs that were not taken, each the last before a stop, are found in a record from the
/// lines of its node alone.
///
/// The remaining record folds, at each start, to the state of the node that took the other inputs, and each
/// start finds the files of its line. A line of an input that was not taken stays only if the input would
/// not have changed the control part, the lengths and the seals; the start then finds the same files.
pub fn missed_inputs_are_found()
    ensures folds { (digest : Node → List ℕ) (n : Node) (ds : List Deed) → IsStory digest n ds
        → after_entries n (without_missed digest n (record_of digest n (ds ++ Started ∷ []))) ≡ after_deeds n (ds ++ Started ∷ []) }
    ensures fits { (digest : Node → List ℕ) (n : Node) (ds : List Deed) → IsStory digest n ds → StartsFit digest n (record_of digest n ds) }
    ensures alike { (n : Node) (i : Input) → HaveSameFiles n (step n i).node → restarted (step n i).node ≡ restarted n }
{}
