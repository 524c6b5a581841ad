ghost use Rattle.std.specs.Prelude.{◌≡◌, ◌⊎◌, ◌↔◌, ℕ, true, Option, List, []};
ghost use Rattle.oc_base.specs.declared.cert.Cert.{Cert};
ghost use Rattle.oc_base.specs.declared.rank.Rank.{Rank};
ghost use Rattle.oc_base.specs.Cert.{Outranks};
ghost use Rattle.oc_base.specs.Rank.{Precedes};
ghost use Rattle.oc_model.specs.Adoption.{precedes, take_rank};
ghost use Rattle.oc_model.specs.Certificates.{outranks};
ghost use Rattle.oc_model.specs.Table.{newest, merge_all};
ghost use Rattle.oc_laws_step.specs.Merging.{AreConsistent, IsLastWord, AreSameCerts};
ghost use Rattle.oc_laws_step.specs.Order.{AreEven, IsNoWorse};

/// Precedence is a strict order of all ranks, and `precedes` decides it.
pub fn ranks_are_ordered()
    ensures decides { (a b : Rank) → (precedes a b ≡ true) ↔ Precedes a b }
    ensures irreflexive { (a : Rank) → Precedes a a → ⊥ }
    ensures transitive { (a b c : Rank) → Precedes a b → Precedes b c → Precedes a c }
    ensures total { (a b : Rank) → Precedes a b ⊎ (Precedes b a ⊎ (a ≡ b)) }
{}

/// A node never takes a worse rank than its own.
pub fn ranks_never_worsen()
    ensures { (own : Option Rank) (told : Rank) → IsNoWorse own (take_rank own told) }
{}

/// Outranking is a strict order, and `outranks` decides it. Two certificates of which neither outranks the
/// other are even: equal in ask number, state and own number.
pub fn certificates_are_ordered()
    ensures decides { (k f : Cert) → (outranks k f ≡ true) ↔ Outranks k f }
    ensures irreflexive { (k : Cert) → Outranks k k → ⊥ }
    ensures transitive { (a b c : Cert) → Outranks a b → Outranks b c → Outranks a c }
    ensures total { (k f : Cert) → Outranks k f ⊎ (Outranks f k ⊎ AreEven k f) }
{}

/// Merging finds the newest certificates: after certificates were merged into an empty table, each row is
/// the last word on its subject among them, and each subject has a row.
///
/// If each ask has one parent, and each own number at one ask and state names one count of clients, the
/// table is the same for any order and any repetitions of the certificates.
pub fn merging_finds_the_newest()
    ensures newest { (cs : List Cert) (x : ℕ) → IsLastWord cs x (newest (merge_all [] cs) x) }
    ensures any_order { (cs ds : List Cert) → AreConsistent cs → AreSameCerts cs ds → merge_all [] cs ≡ merge_all [] ds }
{}
