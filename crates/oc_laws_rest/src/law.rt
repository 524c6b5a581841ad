ghost use Rattle.std.specs.Prelude.{◌≡◌, ℕ, true, List, [], ◌∷◌, ◌++◌};
ghost use Rattle.oc_model.specs.declared.event.Event.{Event};
ghost use Rattle.oc_model.specs.Chains.{IsUp, IsJoined, IsRoot};
ghost use Rattle.oc_model.specs.Checking.{is_peer};
ghost use Rattle.oc_model.specs.ClaimsTree.{seq_of};
ghost use Rattle.oc_model.specs.Lawful.{IsHeader};
ghost use Rattle.oc_model.specs.NextWorld.{world_after};
ghost use Rattle.oc_model.specs.Node.{Header};
ghost use Rattle.oc_model.specs.Numbers.{number_end};
ghost use Rattle.oc_model.specs.Ready.{HoldsLease, IsReadyUnder};
ghost use Rattle.oc_model.specs.World.{World, is_up, mode_of, new_world};
ghost use Rattle.oc_laws_rest.specs.Rest.{IsAtRest, begun, IsOnlyMember, PeersAreUp, NobodyAsks, JoinedAreLeased, IsUnmeasured, LeasesAreOfUp, IsLeastMember, NobodyMeasured, HaveRoom, LeasesAreCurrent};
ghost use Rattle.oc_laws_rest.specs.Rounds.{Round, after_rounds, is_quiet};

/// A new network in which one chain member is up comes to rest by itself in two rounds, and is at rest at the
/// end of each later one: whatever nodes were started, in whatever order the nodes tick and the messages
/// arrive, and however often a message arrives. Where that member is the source, one round is enough.
///
/// In a round each node that is up ticks once, at a second at which its check is due and before a lease could
/// end; then each message of the round arrives, or its sender is told that its receiver is down. The member
/// asks each earlier one first, and acts as root when it was told of all; every other node then becomes its
/// child by its first ask, and asks no more. The nodes that are up stay so.
pub fn new_networks_rest()
    ensures rests { (h : Header) (xs : List ℕ) (m : ℕ) (q r : Round) (rs : List Round) → IsHeader h → IsOnlyMember (begun h xs) m → is_quiet (begun h xs) (q ∷ r ∷ rs) ≡ true
        → IsAtRest (after_rounds (begun h xs) (q ∷ r ∷ rs)) m }
    ensures source { (h : Header) (xs : List ℕ) (q : Round) (rs : List Round) → IsHeader h → IsOnlyMember (begun h xs) 1 → is_quiet (begun h xs) (q ∷ rs) ≡ true
        → IsAtRest (after_rounds (begun h xs) (q ∷ rs)) 1 }
    ensures asks { (h : Header) (xs : List ℕ) (m : ℕ) (q r : Round) (rs : List Round) (x : ℕ) → IsHeader h → IsOnlyMember (begun h xs) m → is_quiet (begun h xs) (q ∷ r ∷ rs) ≡ true
        → IsUp (begun h xs) x → (x ≡ m → ⊥) → seq_of (after_rounds (begun h xs) (q ∷ r ∷ rs)) x ≡ 1 }
    ensures up { (h : Header) (xs : List ℕ) (m : ℕ) (q r : Round) (rs : List Round) (x : ℕ) → IsHeader h → IsOnlyMember (begun h xs) m → is_quiet (begun h xs) (q ∷ r ∷ rs) ≡ true
        → is_up (after_rounds (begun h xs) (q ∷ r ∷ rs)) x ≡ is_up (begun h xs) x }
{}

/// From the end of the first round on, whatever world it began in, every parent and every node that is asked is
/// up: a node whose parent went down, or that asks a node that is down, learns so in the round and has left it at
/// the end. The nodes that are up stay so, and no other comes up.
pub fn failures_are_noticed()
    ensures peers { (w : World) (r : Round) (rs : List Round) → is_quiet w (r ∷ rs) ≡ true → PeersAreUp (after_rounds w (r ∷ rs)) }
    ensures up { (w : World) (r : Round) (rs : List Round) (x : ℕ) → is_quiet w (r ∷ rs) ≡ true → is_up (after_rounds w (r ∷ rs)) x ≡ is_up w x }
{}

/// From the end of the first round on, in every world that events lead to and whatever messages of before still
/// come in it, no node that is up asks: each ask of a round is answered in the round, or told as failed, and so
/// is each ask that follows it. A node that is up is then idle, joined to a node that is up, or acts as root.
pub fn asks_end()
    ensures { (h : Header) (es : List Event) (r : Round) (rs : List Round) → is_quiet (world_after (new_world h) es) (r ∷ rs) ≡ true
        → NobodyAsks (after_rounds (world_after (new_world h) es) (r ∷ rs)) }
{}

/// From the end of the second round on, in every world that events lead to and whatever messages of before still
/// come in the first one, each node that is up and joined has its place: its parent is up, and holds its lease at
/// its ask number for thirty seconds from now, since it renewed the lease in the round. A node without such a
/// lease was told to ask anew in the round, and is joined no more.
pub fn joined_nodes_are_leased()
    ensures { (h : Header) (es : List Event) (q r : Round) (rs : List Round) → is_quiet (world_after (new_world h) es) (q ∷ r ∷ rs) ≡ true
        → JoinedAreLeased (after_rounds (world_after (new_world h) es) (q ∷ r ∷ rs)) }
{}

/// From the end of the second round on, in every world that events lead to, a node past the chain that has
/// measured no way keeps its place: if it is joined to a node at the end of a round, it is joined to that node at
/// the end of each later one, under the same ask number. By [`joined_nodes_are_leased`] that node is up and holds
/// its lease at each of these ends.
pub fn nodes_keep_their_parents()
    ensures parent { (h : Header) (es : List Event) (q r : Round) (rs more : List Round) (x p : ℕ) → is_quiet (world_after (new_world h) es) (q ∷ r ∷ rs ++ more) ≡ true
        → IsUnmeasured (after_rounds (world_after (new_world h) es) (q ∷ r ∷ rs)) x → IsUp (after_rounds (world_after (new_world h) es) (q ∷ r ∷ rs)) x
        → IsJoined (after_rounds (world_after (new_world h) es) (q ∷ r ∷ rs)) x p → IsJoined (after_rounds (world_after (new_world h) es) (q ∷ r ∷ rs ++ more)) x p }
    ensures number { (h : Header) (es : List Event) (q r : Round) (rs more : List Round) (x p : ℕ) → is_quiet (world_after (new_world h) es) (q ∷ r ∷ rs ++ more) ≡ true
        → IsUnmeasured (after_rounds (world_after (new_world h) es) (q ∷ r ∷ rs)) x → IsUp (after_rounds (world_after (new_world h) es) (q ∷ r ∷ rs)) x
        → IsJoined (after_rounds (world_after (new_world h) es) (q ∷ r ∷ rs)) x p
        → seq_of (after_rounds (world_after (new_world h) es) (q ∷ r ∷ rs ++ more)) x ≡ seq_of (after_rounds (world_after (new_world h) es) (q ∷ r ∷ rs)) x }
{}

/// In every world that events lead to, and whatever messages of before still come in the first round: from the
/// end of the first round on the least chain member that is up neither asks a node nor is joined to one, and
/// from the end of the second round on it acts as root, unless it has used up its ask numbers.
pub fn least_members_become_roots()
    ensures asks { (h : Header) (es : List Event) (m : ℕ) (r : Round) (rs : List Round) (p : ℕ) → IsLeastMember (world_after (new_world h) es) m
        → is_quiet (world_after (new_world h) es) (r ∷ rs) ≡ true → is_peer (mode_of (after_rounds (world_after (new_world h) es) (r ∷ rs)) m) p ≡ true → ⊥ }
    ensures root { (h : Header) (es : List Event) (m : ℕ) (q r : Round) (rs : List Round) → IsLeastMember (world_after (new_world h) es) m
        → is_quiet (world_after (new_world h) es) (q ∷ r ∷ rs) ≡ true → (seq_of (after_rounds (world_after (new_world h) es) (q ∷ r ∷ rs)) m ≡ number_end → ⊥)
        → IsRoot (after_rounds (world_after (new_world h) es) (q ∷ r ∷ rs)) m }
{}

/// In every world that events lead to: once the least chain member that is up acts as root at the end of a round,
/// after three more rounds each lease that it holds is of another node that is up. A node that is down sends
/// nothing, and a root neither asks nor checks in, so such a lease is not renewed; and the clock of a root goes on
/// by at least eighteen seconds in each of the last two rounds.
pub fn roots_forget_the_down()
    ensures up { (h : Header) (es : List Event) (m : ℕ) (q : Round) (rs : List Round) (a b c : Round) → IsLeastMember (world_after (new_world h) es) m
        → is_quiet (world_after (new_world h) es) (q ∷ rs ++ a ∷ b ∷ c ∷ []) ≡ true → IsRoot (after_rounds (world_after (new_world h) es) (q ∷ rs)) m
        → LeasesAreOfUp (after_rounds (world_after (new_world h) es) (q ∷ rs ++ a ∷ b ∷ c ∷ [])) m }
    ensures itself { (h : Header) (es : List Event) (m : ℕ) (q : Round) (rs : List Round) (a b c : Round) (s : ℕ) → IsLeastMember (world_after (new_world h) es) m
        → is_quiet (world_after (new_world h) es) (q ∷ rs ++ a ∷ b ∷ c ∷ []) ≡ true → IsRoot (after_rounds (world_after (new_world h) es) (q ∷ rs)) m
        → HoldsLease (after_rounds (world_after (new_world h) es) (q ∷ rs ++ a ∷ b ∷ c ∷ [])) m m s → ⊥ }
{}

/// In every world that events lead to in which one chain member is up, and no node that is up has measured a way:
/// after six rounds, and at the end of each later one, the network is one tree. The member is the one root, each
/// other node that is up has a chain of nodes that are up to it, and each parent holds its child's lease. The old
/// messages, places, ranks and leases may be any; ask numbers and epochs must not have run out.
///
/// The member acts as root after two rounds. After three more it holds no lease of a node that is down, so that it
/// refuses nobody. A node that has no place then finds one: it tries the member, if not another node before, and no
/// node keeps a search from an earlier round.
pub fn networks_of_one_member_become_ready()
    ensures { (h : Header) (es : List Event) (m : ℕ) (q r : Round) (rs : List Round) (a b c d : Round) → IsOnlyMember (world_after (new_world h) es) m → NobodyMeasured (world_after (new_world h) es)
        → is_quiet (world_after (new_world h) es) (q ∷ r ∷ rs ++ a ∷ b ∷ c ∷ d ∷ []) ≡ true → HaveRoom (after_rounds (world_after (new_world h) es) (q ∷ r ∷ rs ++ a ∷ b ∷ c ∷ d ∷ []))
        → IsReadyUnder (after_rounds (world_after (new_world h) es) (q ∷ r ∷ rs ++ a ∷ b ∷ c ∷ d ∷ [])) m }
{}

/// In every world that events lead to: a node past the chain that has measured no way, and is joined at the end of
/// the second round or of a later one, holds three rounds later no lease of a node that is down. Such a node keeps
/// its place, so its next check is due by its clock, which goes on by at least eighteen seconds in each of the
/// last two rounds.
pub fn children_forget_the_down()
    ensures { (h : Header) (es : List Event) (q r : Round) (rs : List Round) (a b c : Round) (x p : ℕ) → is_quiet (world_after (new_world h) es) (q ∷ r ∷ rs ++ a ∷ b ∷ c ∷ []) ≡ true
        → IsUnmeasured (after_rounds (world_after (new_world h) es) (q ∷ r ∷ rs)) x → IsUp (after_rounds (world_after (new_world h) es) (q ∷ r ∷ rs)) x
        → IsJoined (after_rounds (world_after (new_world h) es) (q ∷ r ∷ rs)) x p → LeasesAreOfUp (after_rounds (world_after (new_world h) es) (q ∷ r ∷ rs ++ a ∷ b ∷ c ∷ [])) x }
{}

/// In every world that events lead to in which one chain member is up, and no node that is up has measured a way:
/// once the network is one tree at the end of the second round or of a later one, as
/// [`networks_of_one_member_become_ready`] tells, three rounds later no lease is stale. Each lease that a node holds
/// is of a node that is up, and joined to it by that ask number. A node that is down sends nothing, the root neither
/// asks nor checks in, and a child checks in with its parent alone, so that no other lease is renewed.
pub fn stale_leases_end()
    ensures { (h : Header) (es : List Event) (m : ℕ) (q r : Round) (rs : List Round) (a b c : Round) → IsOnlyMember (world_after (new_world h) es) m → NobodyMeasured (world_after (new_world h) es)
        → is_quiet (world_after (new_world h) es) (q ∷ r ∷ rs ++ a ∷ b ∷ c ∷ []) ≡ true → IsReadyUnder (after_rounds (world_after (new_world h) es) (q ∷ r ∷ rs)) m
        → LeasesAreCurrent (after_rounds (world_after (new_world h) es) (q ∷ r ∷ rs ++ a ∷ b ∷ c ∷ [])) }
{}

/// In every world that events lead to in which one chain member is up, and no node that is up has measured a way:
/// once the network is one tree at the end of the second round or of a later one, it is one tree at the end of each
/// later round. Each node keeps its parent, and the root acts on.
pub fn trees_stay()
    ensures { (h : Header) (es : List Event) (m : ℕ) (q r : Round) (rs more : List Round) → IsOnlyMember (world_after (new_world h) es) m → NobodyMeasured (world_after (new_world h) es)
        → is_quiet (world_after (new_world h) es) (q ∷ r ∷ rs ++ more) ≡ true → IsReadyUnder (after_rounds (world_after (new_world h) es) (q ∷ r ∷ rs)) m
        → IsReadyUnder (after_rounds (world_after (new_world h) es) (q ∷ r ∷ rs ++ more)) m }
{}
