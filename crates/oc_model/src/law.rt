ghost use Rattle.oc_model.specs.ExamplesChoice.{Descent, DescentGoesOn, SiblingReview, RefusedReview, ChainReview, ChooseAmong, CertificateRace, MergedCounts};
ghost use Rattle.oc_model.specs.ExamplesContent.{FirstPath, FirstPathHeld, SealedGroup, SealedGroupHeld, ServedCounts, TornGate, TornGateHeld, DownAndUnknown, PublishElsewhere, PublishElsewhereHeld};
ghost use Rattle.oc_model.specs.ExamplesLeases.{FalseDeath, Quash, FailedParent, EarlyCheckIn};
ghost use Rattle.oc_model.specs.ExamplesMoves.{CrossingMoves, StaleAncestors, StaleAncestorsSettled, StaleLines, StaleSettles, ReverseMove};
ghost use Rattle.oc_model.specs.ExamplesRoots.{TakeoverAndReturn, Healing, HealWithoutAChainMember};

/// Checks examples of how bytes spread and how clients are counted.
pub fn content_computes()
    ensures first_path { FirstPath }
    ensures first_path_held { FirstPathHeld }
    ensures sealed_group { SealedGroup }
    ensures sealed_group_held { SealedGroupHeld }
    ensures served_counts { ServedCounts }
    ensures torn_gate { TornGate }
    ensures torn_gate_held { TornGateHeld }
    ensures down_and_unknown { DownAndUnknown }
    ensures publish_elsewhere { PublishElsewhere }
    ensures publish_elsewhere_held { PublishElsewhereHeld }
{}

/// Checks examples of how a place is chosen and which certificate stays.
pub fn choices_compute()
    ensures descent { Descent }
    ensures descent_goes_on { DescentGoesOn }
    ensures sibling_review { SiblingReview }
    ensures refused_review { RefusedReview }
    ensures chain_review { ChainReview }
    ensures choose_among { ChooseAmong }
    ensures certificate_race { CertificateRace }
    ensures merged_counts { MergedCounts }
{}

/// Checks examples of how nodes move and who refuses them.
pub fn moves_compute()
    ensures crossing_moves { CrossingMoves }
    ensures stale_ancestors { StaleAncestors }
    ensures stale_ancestors_settled { StaleAncestorsSettled }
    ensures stale_lines { StaleLines }
    ensures stale_settles { StaleSettles }
    ensures reverse_move { ReverseMove }
{}

/// Checks examples of how leases end and how changes are told.
pub fn leases_compute()
    ensures false_death { FalseDeath }
    ensures quash { Quash }
    ensures failed_parent { FailedParent }
    ensures early_check_in { EarlyCheckIn }
{}

/// Checks examples of how a root takes over and gives way, and how a world heals.
pub fn roots_compute()
    ensures takeover_and_return { TakeoverAndReturn }
    ensures heal { Healing }
    ensures heal_without_a_chain_member { HealWithoutAChainMember }
{}
