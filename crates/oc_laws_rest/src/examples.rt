ghost use Rattle.oc_laws_rest.specs.Examples.{NewNetworkRests, LeasesAreRenewed, ParentIsKept, FailuresAreTold, UntoldFailuresAreNone, AskIsAnswered, ParentsAreLeft, TurnsNeedAClock, DownAreForgotten, OrphansFindTheRoot, StaleLeasesEnd};

/// Checks worked examples of rounds.
pub fn rounds_compute()
    ensures rests { NewNetworkRests }
    ensures leased { LeasesAreRenewed }
    ensures kept { ParentIsKept }
    ensures told { FailuresAreTold }
    ensures untold { UntoldFailuresAreNone }
    ensures answered { AskIsAnswered }
    ensures left { ParentsAreLeft }
    ensures clock { TurnsNeedAClock }
{}

/// Checks worked examples of leases that end and of nodes that find a place.
pub fn trees_compute()
    ensures forgotten { DownAreForgotten }
    ensures orphans { OrphansFindTheRoot }
    ensures stale { StaleLeasesEnd }
{}
