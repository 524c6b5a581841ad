//! Laws of the definitions.

ghost use Rattle.std.specs.Prelude.{◌≡◌, ◌≢◌, ◌⊎◌, ℕ, Bool, Option, Some, List, [], ◌++◌, false};
ghost use Rattle.oc_base.specs.Groups.{shelf};
ghost use Rattle.oc_base.specs.declared.group.Group.{Group};
ghost use Rattle.oc_link.specs.Calls.{IsFront};
ghost use Rattle.oc_link.specs.Traffic.{given};
ghost use Rattle.oc_link.specs.declared.call.Call.{Call};
ghost use Rattle.oc_link.specs.declared.phase.Phase.TheVariants.{Answering, Awaiting, Whole};
ghost use Rattle.oc_model.specs.Node.{Node};
ghost use Rattle.oc_model.specs.Step.{step};
ghost use Rattle.oc_model.specs.declared.answer.Answer.{Answer};
ghost use Rattle.oc_model.specs.declared.answer.Answer.TheVariants.{Serve};
ghost use Rattle.oc_model.specs.declared.input.Input.TheVariants.{Client as ClientInput};
ghost use Rattle.oc_routes.specs.declared.hint.Hint.{Hint};
ghost use Rattle.oc_routes.specs.Selections.{is_past};
ghost use Rattle.oc_routes.specs.Waits.{holding};
ghost use Rattle.oc_routes.specs.declared.hint.Hint.TheVariants.{Here, Plain};
ghost use Rattle.oc_routes.specs.declared.manner.Manner.{Manner};
ghost use Rattle.oc_routes.specs.declared.manner.Manner.TheVariants.{Once};
ghost use Rattle.oc_routes.specs.declared.routes.Operation.TheVariants.{Client};
ghost use Rattle.oc_select.specs.declared.selection.Selection.{Selection};
ghost use Rattle.oc_select.specs.declared.selection.Selection.TheVariants.{Part};
ghost use Rattle.oc_deeds.specs.Deeds.{Deed, Running, Setting, after_all, calls_of, content_at};
ghost use Rattle.oc_deeds.specs.Examples.{AreRuns};
ghost use Rattle.oc_deeds.specs.ReplyExamples.{AreReplied};
ghost use Rattle.oc_deeds.specs.Replying.{IsGivable, IsOrdered, asked_of, client_content, replied_all, phase_on};

/// Worked examples of short runs come out as they should. They are computed.
pub fn examples_compute()
    ensures { AreRuns }
{}

/// Each connection of a running node was given a beginning of the replies to its requests, one after another, since a
/// moment without works, whatever the node does, and all of them where its next request is awaited or its last reply is
/// whole.
pub fn connections_are_given_their_replies()
    ensures front { (s : Setting) (made : List Call) (deeds : List Deed) (a : Running) (c : ℕ)
        → a.works ≡ [] → phase_on c made ≢ Answering → IsOrdered s made deeds a
        → IsFront (given c (calls_of s deeds a)) (replied_all c deeds (after_all deeds a).node.groups) }
    ensures whole { (s : Setting) (made : List Call) (deeds : List Deed) (a : Running) (c : ℕ)
        → a.works ≡ [] → phase_on c made ≢ Answering → IsOrdered s made deeds a
        → (phase_on c (made ++ calls_of s deeds a) ≡ Awaiting) ⊎ (phase_on c (made ++ calls_of s deeds a) ≡ Whole)
        → given c (calls_of s deeds a) ≡ replied_all c deeds (after_all deeds a).node.groups }
    ensures examples { AreReplied }
{}

/// The bytes given to a client in chunks are there when it is answered, by the answer of its step or by the node itself.
pub fn what_is_given_in_chunks_is_there()
    ensures step { (n : Node) (group : List ℕ) (area start : ℕ) (manner : Manner) (hint : Hint) (chosen : Selection) (last : Bool) (addresses : List (Option (List ℕ)))
        → IsGivable (client_content (asked_of (Client group area start manner) hint chosen) last (step n (ClientInput area start group)).answer (step n (ClientInput area start group)).node.groups addresses)
        (step n (ClientInput area start group)).node.groups }
    ensures here { (answer : Answer) (groups : List Group) (group : List ℕ) (area start : ℕ) (manner : Manner) (chosen : Selection) (last : Bool) (addresses : List (Option (List ℕ)))
        → IsGivable (client_content (asked_of (Client group area start manner) Here chosen) last answer groups addresses) groups }
{}

/// A client that selects a part of a group is given these bytes of it and no others, where its step serves it.
pub fn a_part_is_what_is_given()
    ensures { (group : List ℕ) (area start at count served : ℕ) (last : Bool) (groups : List Group) (addresses : List (Option (List ℕ)))
        → is_past start (holding group (shelf groups)) ≡ false
        → client_content (asked_of (Client group area start Once) Plain (Part at count)) last (Serve served) groups addresses
        ≡ content_at group (Some (record { start = at; count = count; chunked = false })) }
{}
