//! Laws of the routes.

ghost use Rattle.std.specs.Prelude.{◌≡◌, ◌≢◌, ℕ, ◌<◌, ◌^◌, Bool, IfSome, List, Option, Some, ◌++◌, codes};
ghost use Rattle.oc_base.specs.Names.{IsGroupName};
ghost use Rattle.oc_http.specs.Escapes.{decoded};
ghost use Rattle.oc_http.specs.PlainLine.{IsPlainLine};
ghost use Rattle.oc_http.specs.Targets.{path_of};
ghost use Rattle.oc_http.specs.declared.head.Head.{Head};
ghost use Rattle.oc_model.specs.Node.{Node};
ghost use Rattle.oc_model.specs.Step.{step};
ghost use Rattle.oc_model.specs.declared.answer.Answer.{Answer};
ghost use Rattle.oc_model.specs.declared.input.Input.TheVariants.{Client as ClientInput, Publish as PublishInput, Seal as SealInput};
ghost use Rattle.oc_policy.specs.declared.rule.Rule.{Rule};
ghost use Rattle.oc_routes.specs.Alike.{AreAlike};
ghost use Rattle.oc_routes.specs.Examples.{AreAnswered, AreRouted};
ghost use Rattle.oc_routes.specs.Group.{IsClientAnswer};
ghost use Rattle.oc_routes.specs.Lines.{IsCounted, IsTellable};
ghost use Rattle.oc_routes.specs.Publish.{IsPublishAnswer, publish_status};
ghost use Rattle.oc_routes.specs.Reasons.{condition_line, no_group_line, nowhere_line, past_line, publish_line, range_line, refused_line, seal_line};
ghost use Rattle.oc_routes.specs.Refusals.{status_of};
ghost use Rattle.oc_routes.specs.Routes.{asked};
ghost use Rattle.oc_routes.specs.Seal.{IsSealAnswer, seal_status};
ghost use Rattle.oc_routes.specs.Shown.{location_of};
ghost use Rattle.oc_routes.specs.declared.manner.Manner.{Manner};
ghost use Rattle.oc_routes.specs.declared.refused.Refused.{Refused};

use oc_http::a_written_path_is_read;

/// A step answers the input of a request by the answers of the table of routes, and by no others.
pub fn steps_answer_by_the_table()
    ensures publish { (n : Node) (group bytes : List ℕ) → IsPublishAnswer (step n (PublishInput group bytes)).answer }
    ensures seal { (n : Node) (group : List ℕ) → IsSealAnswer (step n (SealInput group)).answer }
    ensures client { (n : Node) (area start : ℕ) (group : List ℕ) → IsClientAnswer (step n (ClientInput area start group)).answer }
{}

/// The token that a request shows decides only whether a rule denies the request, and 401 tells this: the operation, and
/// each other refusal with its line and its reply, is the same whatever is shown.
pub fn a_token_tells_nothing()
    ensures { (head : Head) (rules : List Rule) (p q : Bool) (x y : Option (List ℕ))
        → AreAlike (asked (record head { has_authorization = p; authorization = x }) rules) (asked (record head { has_authorization = q; authorization = y }) rules) }
{}

/// The body of each reply of status 400 or above is one line of 1 to 1,000 bytes from the space to `~`, with a line feed
/// after it.
pub fn a_refusal_is_one_line()
    ensures refused { (refused : Refused) → IsCounted refused → IfSome (status_of refused) (λ status. IsPlainLine (refused_line refused)) }
    ensures publish { (answer : Answer) (source group : List ℕ) → IsPublishAnswer answer → publish_status answer ≢ 200
        → IsTellable source → IsGroupName group → IsPlainLine (publish_line answer source group) }
    ensures seal { (answer : Answer) (source group : List ℕ) → IsSealAnswer answer → seal_status answer ≢ 200
        → IsTellable source → IsGroupName group → IsPlainLine (seal_line answer source group) }
    ensures absent { IsPlainLine no_group_line }
    ensures nowhere { IsPlainLine nowhere_line }
    ensures past { (length : ℕ) → length < 2 ^ 64 → IsPlainLine (past_line length) }
    ensures condition { IsPlainLine condition_line }
    ensures range { (length : ℕ) → length < 2 ^ 64 → IsPlainLine (range_line length) }
{}

/// The Location by which a client is sent on has the path of its group, in escapes: a node that is asked for its target
/// decodes the same group.
pub fn a_location_names_its_group()
    ensures { (address group told : List ℕ) (start : ℕ) (manner : Manner) → IsGroupName group
        → (target : List ℕ) × (location_of address group start told manner ≡ codes "http://" ++ address ++ target) × (decoded (path_of target) ≡ Some group) }
{
    a_written_path_is_read();
}

/// Worked examples of requests, inputs and responses come out as they should. They are computed.
pub fn examples_compute()
    ensures routed { AreRouted }
    ensures answered { AreAnswered }
{}
