//! The meaning of a content file, frame by frame.

ghost use Rattle.std.specs.Prelude.{◌≡◌, ◌↔◌, ℕ, ◌^◌, ◌<◌, true, List, Some, IsSome, IsTrue, Any};
ghost use Rattle.oc_base.specs.Groups.{group_of};
ghost use Rattle.oc_base.specs.Names.{IsGroupName};
ghost use Rattle.oc_content.specs.ContentFile.{content_of, groups_in, bytes_in};
ghost use Rattle.oc_content.specs.Entries.{Entry, entry_of, written};
ghost use Rattle.oc_content.specs.GroupPieces.{is_for, pieces_for, seals_for, sealed_in};

/// In good frames, the bytes of a group are the bytes of its bodies in order; the group is sealed exactly if
/// one of its bodies begins with the byte 0, and is there exactly if it has a body.
pub fn groups_are_their_pieces()
    ensures bytes { (bodies : List (List ℕ)) (g : List ℕ) → IsSome (content_of bodies)
        → bytes_in g bodies ≡ pieces_for g bodies }
    ensures sealed { (bodies : List (List ℕ)) (g : List ℕ) → IsSome (content_of bodies)
        → (IsTrue (sealed_in g bodies) ↔ Any (λ body. seals_for g body ≡ true) bodies) }
    ensures held { (bodies : List (List ℕ)) (g : List ℕ) → IsSome (content_of bodies)
        → (IsSome (group_of g (groups_in bodies)) ↔ Any (λ body. is_for g body ≡ true) bodies) }
{}

/// The body that is written for an entry reads as that entry.
pub fn bodies_say_their_entry()
    ensures { (e : Entry) → IsGroupName e.group → e.start < 2 ^ 64 → entry_of (written e) ≡ Some e }
{}
