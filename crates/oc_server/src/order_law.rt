//! The law of the order in which deeds are done.

ghost use Rattle.std.specs.Prelude.{◌≡◌, ℕ, Bool, Option, Some, List, [], ◌∷◌};
ghost use Rattle.oc_link.specs.declared.call.Call.{Call};
ghost use Rattle.oc_link.specs.declared.call.Call.TheVariants.{Listen};
ghost use Rattle.oc_keep.specs.KeptView.{IsHonest};
ghost use Rattle.oc_probe.specs.declared.probing.Probing.{Probing};
ghost use Rattle.oc_deeds.specs.Answered.{AreAnswered};
ghost use Rattle.oc_deeds.specs.Deeds.{Running, Setting};
ghost use Rattle.oc_deeds.specs.Replying.{IsOrdered};
ghost use Rattle.oc_server.specs.Runs.{ServeEnds, Turned};
ghost use Rattle.oc_server.specs.Scenes.{running, setting};
ghost use Rattle.oc_deeds.specs.Settled.{AreServed, IsSettled};
ghost use Rattle.oc_server.specs.Settled.{deeds_until};
ghost use Rattle.oc_deeds.specs.Turns.{Observation, turn};
ghost use Rattle.oc_deeds.specs.declared.ends.TurnEnd.{TurnEnd};
ghost use Rattle.oc_deeds.specs.declared.pace.Pace.{Pace};
ghost use Rattle.oc_server.specs.declared.turns.Turns.{Turns};

use oc_io::{Disk, Sink};
use oc_link::Link;

/// A turn does its deeds in order, and after it the works fit each connection as they did before. It answers each request
/// by the step of its input. Whatever number of turns are done, and wherever the last ends partway through: each
/// connection was given a beginning of the replies to its requests, and all of them where its next request is awaited or
/// its last reply is whole.
pub fn turns_are_in_order<D: Disk, L: Link, K: Sink>()
    ensures begins { (address : List ℕ) → IsSettled (Listen address ∷ []) [] }
    ensures turn { (served : Bool) (old new : Turns D L K) (made later : List Call)
        → (turned : Turned D.view K.takes K.faults L.story L.counts served old new) → IsHonest D.view old.server.kept
        → L.story old.server.link ≡ Some made → L.story new.server.link ≡ Some later → IsSettled made old.server.works
        → IsOrdered (setting old.server) made (turn old.pace old.probing turned.told (setting old.server) (running old.server)) (running old.server)
        × IsSettled later new.server.works }
    ensures answers { (pace : Pace) (probing : Option Probing) (told : Observation) (s : Setting) (a : Running) → AreAnswered s (turn pace probing told s a) a }
    ensures serve { (most : ℕ) (end : TurnEnd) (old new : Turns D L K) (made later : List Call) → IsHonest D.view old.server.kept
        → L.story old.server.link ≡ Some made → L.story new.server.link ≡ Some later → old.server.works ≡ [] → IsSettled made old.server.works
        → (ended : ServeEnds D.view K.takes K.fails K.faults L.story L.counts most end old new)
        → AreServed (setting old.server) made later (deeds_until D.view K.takes K.fails K.faults L.story L.counts most end old new ended) (running old.server) }
{}
