//! Laws of a running node.

ghost use Rattle.std.specs.Prelude.{◌≡◌, ◌≢◌, ℕ, Bool, List, [], ◌∷◌, ◌++◌, Option, length};
ghost use Rattle.oc_link.specs.Traffic.{held};
ghost use Rattle.oc_link.specs.declared.call.Call.{Call};
ghost use Rattle.oc_link.specs.declared.call.Call.TheVariants.{Next};
ghost use Rattle.oc_link.specs.declared.counts.LinkCounts.{LinkCounts};
ghost use Rattle.oc_link.specs.declared.event.Arrival.{Arrival};
ghost use Rattle.oc_link.specs.declared.event.Coming.{Coming};
ghost use Rattle.oc_link.specs.declared.event.Coming.TheVariants.{Open};
ghost use Rattle.oc_link.specs.declared.event.LinkEvent.TheVariants.{Quiet, Request};
ghost use Rattle.oc_probe.specs.declared.probing.Probing.{Probing};
ghost use Rattle.oc_routes.specs.Verdicts.{NodeTerms, arrival};
ghost use Rattle.oc_routes.specs.declared.verdict.Verdict.TheVariants.{Wait};
ghost use Rattle.oc_deeds.specs.Deeds.{Deed, Running, Setting};
ghost use Rattle.oc_deeds.specs.Done.{CountsAll};
ghost use Rattle.oc_deeds.specs.Turns.{Means, Observation, happens, turn};
ghost use Rattle.oc_deeds.specs.declared.came.Came.{Came};
ghost use Rattle.oc_deeds.specs.declared.came.Came.TheVariants as comes;
ghost use Rattle.oc_deeds.specs.declared.dials.Errand.{Errand};
ghost use Rattle.oc_deeds.specs.declared.pace.Pace.{Pace};
ghost use Rattle.oc_service.specs.Alike.{AreAlike, told_request};
ghost use Rattle.oc_service.specs.Examples.{AreCut, AreTold};
ghost use Rattle.oc_service.specs.MachineExamples.{Computes};
ghost use Rattle.oc_service.specs.Failures.{AreBorneOut, RiseForLines};

use oc_routes::a_request_has_one_verdict;

/// Lines `! source` and `! write` that follow from the link's reports are written only if the count of requests that could
/// not be read, or of replies that could not be sent, rose with the last event.
pub fn lines_of_failures_raise_counts()
    ensures counts { (deeds : List Deed) (old new : LinkCounts) → AreBorneOut Quiet deeds → CountsAll deeds old new → RiseForLines old old deeds new }
    ensures examples { AreTold }
{}

/// A node that looks at the file of its configuration goes by what it reads there, or keeps the one that it has and tells why,
/// as computed for a node of two.
pub fn machine_computes()
    ensures { Computes }
{}

/// The same bytes of a request, however they are cut on their way, get the same reply and the same
/// line from the same node, in the turn in which they are answered; until then they have no effect.
pub fn the_same_bytes_are_answered_alike()
    // Two pieces together are lent as one piece.
    ensures lent { (c d number next : ℕ) (permitted permits : Bool) (coming later : Coming) (calls : List Call) (first more : List ℕ)
        → held c (calls ++ (Next (Request (arrival d number permitted coming)) first ∷ Next (Request (arrival d next permits later)) more ∷ []))
        ≡ held c (calls ++ (Next (Request (arrival d next permits later)) (first ++ more) ∷ [])) }

    // The same lent bytes get the same answer.
    ensures same { (n : NodeTerms) (pace : Pace) (probing : Option Probing) (t : Observation) (s : Setting) (r : Running) (a : Arrival) (lent bytes other : List ℕ) (e f : Option Errand) (x y : Came)
        → Means n lent e (Request a) x → Means n lent f (Request a) y
        → AreAlike s (turn pace probing (told_request t a bytes x) s r) (turn pace probing (told_request t a other y) s r) r }

    // An answer before all bytes have come is the same as the answer to all of them.
    ensures early { (n : NodeTerms) (pace : Pace) (probing : Option Probing) (t : Observation) (s : Setting) (r : Running) (c number : ℕ) (permitted : Bool) (coming : Coming) (lent more bytes other : List ℕ) (e f : Option Errand) (x y : Came)
        → Means n lent e (Request (arrival c number permitted Open)) x → x ≢ comes.Request c (length lent) Wait → Means n (lent ++ more) f (Request (arrival c number permitted coming)) y
        → AreAlike s (turn pace probing (told_request t (arrival c number permitted Open) bytes x) s r) (turn pace probing (told_request t (arrival c number permitted coming) other y) s r) r }

    // Waiting for more bytes has no effect.
    ensures waits { (probing : Option Probing) (c count now median started : ℕ) (s : Setting) (r : Running) → happens probing (comes.Request c count Wait) now median started s r ≡ [] }
    ensures examples { AreCut }
{
    a_request_has_one_verdict();
}
