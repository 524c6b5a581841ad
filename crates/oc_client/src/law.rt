//! Laws about the effect of a publishing on a group. The functions do nothing.

ghost use Rattle.std.specs.Prelude.{List, ℕ};
ghost use Rattle.oc_client.specs.Publishing.{IsDone};
ghost use Rattle.oc_client.specs.Sources.{SourceGroup, SourceState, Serves, fresh, Adds};
ghost use Rattle.oc_client.specs.PutTurns.{PutTurn};
ghost use Rattle.oc_client.specs.Examples.{AreTexts, AreAnswers, AreSteps, AreArrivals};
ghost use Rattle.oc_client.specs.declared.publication.Publication.{Publication};

/// If the source follows the rules and nobody else publishes into its group, a publishing that is
/// done has added its input exactly once, whichever dials failed and however late the sent bytes
/// arrived.
pub fn the_input_is_added_once()
    ensures { (plan : Publication) (turns : List PutTurn) (input : List ℕ) (group : SourceGroup) (after : SourceState)
        → IsDone plan turns input → Serves (fresh group) turns after → Adds plan input group after.group }
{}

/// The worked examples of `specs/Examples` compute to the values given there.
pub fn examples_compute()
    ensures texts { AreTexts }
    ensures answers { AreAnswers }
    ensures steps { AreSteps }
    ensures arrivals { AreArrivals }
{}
