//! Laws of the definitions.

ghost use Rattle.std.specs.Prelude.{◌≡◌, ℕ, ◌≤◌, IfSome, List, [], ◌∷◌, ◌++◌, length, Option, Some, Result, Ok};
ghost use Rattle.std.specs.Str.{byte};
ghost use Rattle.oc_base.specs.declared.limits.TheConstants.{MAX_BODY_BYTES};
ghost use Rattle.oc_http.specs.Answers.{IsDecided, AnswersRequest, AnswersReplyHead, AnswersReply, written_head};
ghost use Rattle.oc_http.specs.Escapes.{AreBytes, decoded, path_text};
ghost use Rattle.oc_http.specs.Examples.{AreRefused, AreRepliesRefused, AreParts, AreTexts, ArePaths};
ghost use Rattle.oc_http.specs.Taking.{SaysRequest};
ghost use Rattle.oc_http.specs.Targets.{path_of};
ghost use Rattle.oc_http.specs.Writing.{IsHost, IsMac, query_text, request_head_with, request_with};
ghost use Rattle.oc_http.specs.declared.fault.HttpFault.{HttpFault};
ghost use Rattle.oc_http.specs.declared.head.Head.{Head};
ghost use Rattle.oc_http.specs.declared.reply.Reply.{Reply};
ghost use Rattle.oc_http.specs.declared.reply.ReplyHead.{ReplyHead};

/// There is one answer to the bytes of a source, however they come: the head of a request that is read, or
/// the fault, and the bytes left after it. Failed calls and a want of memory are left out.
pub fn a_request_has_one_answer()
    ensures { (left r s : List ℕ) (first second : Result Head HttpFault) → AnswersRequest left r first → AnswersRequest left s second
        → IsDecided first → IsDecided second → (first ≡ second) × (r ≡ s) }
{}

/// The same for the head of a response.
pub fn a_response_head_has_one_answer()
    ensures { (left r s : List ℕ) (first second : Result ReplyHead HttpFault) → AnswersReplyHead left r first → AnswersReplyHead left s second
        → IsDecided first → IsDecided second → (first ≡ second) × (r ≡ s) }
{}

/// The same for a whole response, but not for the bytes left after it: more of a body that is too long may be taken.
pub fn a_response_has_one_answer()
    ensures { (left r s : List ℕ) (first second : Result Reply HttpFault) → AnswersReply left r first → AnswersReply left s second
        → IsDecided first → IsDecided second → first ≡ second }
{}

/// The text of `write_request` is read as the head of a POST to `/!overcast` with the body's length and its MAC, and
/// after it the body is left.
pub fn a_written_request_is_read()
    ensures says { (mac : Option (List ℕ)) (host : List ℕ) (count : ℕ) → IfSome mac IsMac → IsHost host → count ≤ MAX_BODY_BYTES
        → SaysRequest (request_head_with mac host count) (written_head mac count) }
    ensures read { (mac : Option (List ℕ)) (host body rest : List ℕ) (answer : Result Head HttpFault)
        → IfSome mac IsMac → IsHost host → length body ≤ MAX_BODY_BYTES
        → AnswersRequest (request_with mac host body) rest answer → IsDecided answer
        → (answer ≡ Ok (written_head mac (length body))) × (rest ≡ body) }
{}

/// The text that `put_path` writes is read as the same path, alone and where a query follows it in a target.
pub fn a_written_path_is_read()
    ensures path { (path : List ℕ) → AreBytes path → decoded (path_text path) ≡ Some path }
    ensures target { (rest : List ℕ) (query : Option (List ℕ)) → AreBytes (byte "/" ∷ rest)
        → decoded (path_of (path_text (byte "/" ∷ rest) ++ query_text query)) ≡ Some (byte "/" ∷ rest) }
{}

/// Worked examples compute from the definitions.
pub fn examples_compute()
    ensures refused { AreRefused }
    ensures replies { AreRepliesRefused }
    ensures parts { AreParts }
    ensures texts { AreTexts }
    ensures paths { ArePaths }
{}
