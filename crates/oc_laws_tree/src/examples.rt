ghost use Rattle.oc_laws_tree.specs.Examples.{WrongCauseOccurs, UntoldOccurs, WaitingOccurs};

/// Each cause of a wrong line or an old count occurs: a node that is down and still listed, a parent that was
/// not told of its child's last number, and a parent at which a certificate waits.
pub fn causes_occur()
    ensures wrong { WrongCauseOccurs }
    ensures untold { UntoldOccurs }
    ensures waiting { WaitingOccurs }
{}
