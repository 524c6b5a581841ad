//! Laws of verdicts, of pieces and of who waits.

ghost use Rattle.std.specs.Prelude.{◌≡◌, ◌≢◌, ◌↔◌, ℕ, ◌+◌, ◌-◌, ◌<◌, ◌≤◌, Bool, false, true, List, ◌++◌, None, Option, Some, length};
ghost use Rattle.oc_base.specs.Groups.{bytes_of, shelf};
ghost use Rattle.oc_base.specs.declared.group.Group.{Group};
ghost use Rattle.oc_base.specs.declared.shelf.Shelf.{Shelf};
ghost use Rattle.oc_link.specs.declared.event.Arrival.{Arrival};
ghost use Rattle.oc_link.specs.declared.event.Coming.{Coming};
ghost use Rattle.oc_link.specs.declared.event.Coming.TheVariants.{Open};
ghost use Rattle.oc_policy.specs.Keys.{Keyring};
ghost use Rattle.oc_routes.specs.Conditions.{unmet_at};
ghost use Rattle.oc_routes.specs.Contents.{IsThere, begun, rest_after, coded, owed, owed_of, part_of, piece_of, piece_text};
ghost use Rattle.oc_routes.specs.ReplyExamples.{AreConditions, AreHinted, AreJudged, ArePieces, AreSelected, AreShown, AreWaiting};
ghost use Rattle.oc_routes.specs.Macs.{HaveMac};
ghost use Rattle.oc_routes.specs.Stillness.{HasNothingNew, IsEarly};
ghost use Rattle.oc_routes.specs.Verdicts.{IsVerdict, NodeTerms, arrival, refuse};
ghost use Rattle.oc_routes.specs.Shown.{here_answer};
ghost use Rattle.oc_routes.specs.Waits.{gives_nothing, holding, is_due, prospect};
ghost use Rattle.oc_routes.specs.declared.asker.Asker.{Asker};
ghost use Rattle.oc_routes.specs.declared.content.UnderWay.{UnderWay};
ghost use Rattle.oc_routes.specs.declared.hint.Hint.{Hint};
ghost use Rattle.oc_routes.specs.declared.holding.Holding.{Holding};
ghost use Rattle.oc_routes.specs.declared.verdict.Verdict.{Verdict};
ghost use Rattle.oc_routes.specs.declared.verdict.Request.{Request};
ghost use Rattle.oc_routes.specs.declared.verdict.Verdict.TheVariants.{Ask, Wait};
ghost use Rattle.oc_routes.specs.declared.waiting.Follower.{Follower};
ghost use Rattle.oc_routes.specs.declared.waiting.Prospect.TheVariants.{Gives, Waits};
ghost use Rattle.oc_routes.specs.declared.waiting.TheConstants.{IDLE_MILLIS};
ghost use Rattle.oc_routes.specs.declared.refused.Refused.TheVariants.{At, Message as NoMessage};
ghost use Rattle.oc_routes.specs.declared.response.GroupRange.{GroupRange};
ghost use Rattle.oc_routes.specs.declared.routes.Operation.TheVariants.{Message as MessageAsked};

/// The same bytes of a request get the same verdict, however they are cut. Bytes have one verdict, and any verdict but
/// to wait on bytes after which more may come is the verdict on these and more bytes too, however they end.
pub fn a_request_has_one_verdict()
    ensures one { (t : NodeTerms) (a : Arrival) (bytes : List ℕ) (v w : Verdict) → IsVerdict t a bytes v → IsVerdict t a bytes w → v ≡ w }
    ensures cut { (t : NodeTerms) (c number : ℕ) (permitted : Bool) (coming : Coming) (bytes more : List ℕ) (v : Verdict)
        → IsVerdict t (arrival c number permitted Open) bytes v → v ≢ Wait → IsVerdict t (arrival c number permitted coming) (bytes ++ more) v }
{}

/// A condition that is met says the length of the group, where a group that is not there has no bytes; the fault of a
/// condition that is not met says the length of the group, which is another one.
pub fn a_condition_says_the_length()
    ensures met { (group : List ℕ) (at : ℕ) (groups : List Group) → unmet_at 1 group (Some at) (shelf groups) ≡ None → length (bytes_of group groups) ≡ at }
    ensures unmet { (group : List ℕ) (at other : ℕ) (groups : List Group) → unmet_at 1 group (Some at) (shelf groups) ≡ Some (At other)
        → (length (bytes_of group groups) ≡ other) × (other ≢ at) }
{}

/// In a network with keys a body is read as a message only where its MAC under one of them is in its head: one that is
/// taken, and one that is refused since it is no message.
pub fn a_message_has_its_mac()
    ensures taken { (t : NodeTerms) (a : Arrival) (ring : Keyring) (bytes : List ℕ) (request : Request) → t.keys ≡ Some ring → request.asked.operation ≡ MessageAsked
        → IsVerdict t a bytes (Ask request) → HaveMac ring bytes }
    ensures read { (t : NodeTerms) (a : Arrival) (ring : Keyring) (bytes : List ℕ) (asker : Asker) (kept : Option ℕ) → t.keys ≡ Some ring → IsVerdict t a bytes (refuse asker kept NoMessage) → HaveMac ring bytes }
{}

/// The pieces of a content are its text: the text that is owed before the first is that of the whole, the one before
/// each is its text and the text owed after it, and the text that is owed is unchanged while the group grows.
pub fn pieces_are_the_content()
    ensures begun { (group : List ℕ) (content : GroupRange) (groups : List Group)
        → owed (Some (begun group content)) groups ≡ coded content.chunked (part_of group content.start content.count groups) }
    ensures piece { (u : UnderWay) (groups : List Group) → IsThere u groups
        → owed (Some u) groups ≡ piece_text u (piece_of u groups) ++ owed (rest_after u (length (piece_of u groups))) groups }
    ensures stays { (u : UnderWay) (old new : List Group) (more : List ℕ) → IsThere u old → bytes_of u.group new ≡ bytes_of u.group old ++ more
        → owed (Some u) new ≡ owed (Some u) old }
{}

/// The pieces of a content whose end is told, and which its group may not have yet: they follow one another in the
/// group, from the start on, and the bytes given are still a part of the group when it has grown. Whatever a group
/// becomes, the text that is owed then is the piece of now and the text that is owed after it.
pub fn pieces_follow_one_another()
    ensures follows { (u : UnderWay) (groups : List Group) (start : ℕ) → start ≤ u.at
        → part_of u.group start (u.at - start) groups ++ piece_of u groups ≡ part_of u.group start ((u.at + length (piece_of u groups)) - start) groups }
    ensures stays { (group : List ℕ) (start at : ℕ) (old new : List Group) (more : List ℕ) → at ≤ length (bytes_of group old)
        → bytes_of group new ≡ bytes_of group old ++ more → part_of group start (at - start) new ≡ part_of group start (at - start) old }
    ensures told { (u : UnderWay) (now later : List Group) (more : List ℕ) → (u.chunked ≡ true → IsThere u now)
        → bytes_of u.group later ≡ bytes_of u.group now ++ more
        → owed (Some u) later ≡ piece_text u (piece_of u now) ++ owed (rest_after u (length (piece_of u now))) later }
{}

/// A content under way waits exactly where its group has nothing new for it, is open, and its time has not passed,
/// and goes on where the group has all of it. A client that the node would answer itself is let wait only where its
/// group has nothing new for it and is open, and is due exactly where this is over, or its time has passed.
pub fn who_waits_has_nothing_new()
    ensures waits { (u : UnderWay) (h : Holding) (idle : ℕ) → u.at < u.end
        → (prospect u h idle ≡ Waits) ↔ (HasNothingNew u.at h × (idle < IDLE_MILLIS)) }
    ensures gives { (u : UnderWay) (h : Holding) (idle : ℕ) → u.at < u.end → u.end ≤ h.held → prospect u h idle ≡ Gives }
    ensures to_wait { (hint : Hint) (group : List ℕ) (lines : List Shelf) (start : ℕ)
        → gives_nothing hint (here_answer (holding group lines) start) (holding group lines) start ≡ true → HasNothingNew start (holding group lines) }
    ensures follower { (f : Follower) (h : Holding) (now : ℕ) → (is_due f h now ≡ false) ↔ (HasNothingNew f.start h × IsEarly f now) }
{}

/// Worked examples compute from the definitions.
pub fn reply_examples_compute()
    ensures judged { AreJudged }
    ensures hinted { AreHinted }
    ensures conditions { AreConditions }
    ensures pieces { ArePieces }
    ensures waiting { AreWaiting }
    ensures shown { AreShown }
    ensures selected { AreSelected }
{}
