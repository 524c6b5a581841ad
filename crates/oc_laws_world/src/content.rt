ghost use Rattle.oc_model.specs.declared.event.Event.{Event};
ghost use Rattle.oc_model.specs.Claims.{HoldPrefixes, HoldAcknowledged, SealedAreWhole, ChunksAreTrue, SealedSourceStays};
ghost use Rattle.oc_laws_world.specs.Throughout.{Always};

/// Content stays true: after any events, in any order, from any new world.
///
/// Each node holds prefixes of the content that the source published, all bytes that it ever told it holds,
/// and the whole of each group that it has sealed; each chunk that was ever sent has bytes of the source;
/// and no further event changes a sealed group of the source.
pub fn content_stays_true()
    ensures prefixes { Always HoldPrefixes }
    ensures acknowledged { Always HoldAcknowledged }
    ensures whole { Always SealedAreWhole }
    ensures chunks { Always ChunksAreTrue }
    ensures sealed_source { Always (λ w. (e : Event) → SealedSourceStays w e) }
{}
