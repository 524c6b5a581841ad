//! Reading of a reply, and the state that follows.

ghost use Rattle.std.specs.Prelude.{◌≡◌, ◌↔◌, ℕ, List, length, IfErr, OnOk, IsErrOf, IsTrue};
ghost use Rattle.oc_client.specs.Conversations.{LeadsOn, EndsWith, Brings, StopsContent, after_content, wanted_after};
ghost use Rattle.oc_client.specs.Passing.{IsHeard, IsLastHeard};
ghost use Rattle.oc_client.specs.Wishes.{wish_of, Takes, keeps};
ghost use Rattle.oc_client.specs.Replies.{framing_of};
ghost use Rattle.oc_io.specs.Faults.{NoFall, Rose};

use crate::client_state::ClientState;
use crate::content::pass_content;
use crate::end::GetEnd;
use crate::redirection::redirect;
use crate::reply_framing::ReplyFraming;
use crate::room::Room;
use crate::wish::Wish;
use oc_http::ReplyHead;
use oc_io::{Sink, Source};

/// Reads a reply from a source, passes its content on to a sink, and moves to the next state.
pub(crate) fn hear<S: Source, K: Sink>(
    wish: &Wish<'_>,
    state: &mut ClientState,
    room: &mut Room,
    source: &mut S,
    sink: &mut K,
) -> Result<(), GetEnd>
    ensures heard { OnOk result (IsHeard S.gives S.ended K.takes
        (λ reply over content. LeadsOn (wish_of wish.now) state.old reply over content state.new)
        source.old source.new sink.old sink.new) }
    ensures last { IfErr result (λ end. IsLastHeard S.gives S.fails S.ended K.takes K.fails
        (EndsWith (wish_of wish.now) state.old) source.old source.new sink.old sink.new end) }
    ensures source_count { NoFall (S.faults source.old) (S.faults source.new) }
    ensures sink_count { NoFall (K.faults sink.old) (K.faults sink.new) }
    ensures source_cause { IsErrOf result GetEnd.Link → Rose (S.faults source.old) (S.faults source.new) }
    ensures sink_cause { IsErrOf result GetEnd.Sink → Rose (K.faults sink.old) (K.faults sink.new) }
{
    let head = room.heads.read_response_head(source)?;
    match head.status {
        200 => take_content(wish, &head, state, room, source, sink),
        302 => redirect(room.alloc, state, head.location),
        status => Err(GetEnd::Refused(status)),
    }
}

/// Passes the content of a reply of 200 on, and moves to the next state.
fn take_content<S: Source, K: Sink>(
    wish: &Wish<'_>,
    head: &ReplyHead,
    state: &mut ClientState,
    room: &mut Room,
    source: &mut S,
    sink: &mut K,
) -> Result<(), GetEnd>
    requires { head.now.status ≡ 200 }
    ensures brought { OnOk result (IsHeard S.gives S.ended K.takes
        (λ body over content. Brings (wish_of wish.now) state.old head.now body over content state.new)
        source.old source.new sink.old sink.new) }
    ensures last { IfErr result (λ end. IsLastHeard S.gives S.fails S.ended K.takes K.fails
        (StopsContent (wish_of wish.now) head.now) source.old source.new sink.old sink.new end) }
    ensures source_count { NoFall (S.faults source.old) (S.faults source.new) }
    ensures sink_count { NoFall (K.faults sink.old) (K.faults sink.new) }
    ensures source_cause { IsErrOf result GetEnd.Link → Rose (S.faults source.old) (S.faults source.new) }
    ensures sink_cause { IsErrOf result GetEnd.Sink → Rose (K.faults sink.old) (K.faults sink.new) }
{
    if !takes(wish, head) {
        return Err(GetEnd::Reply);
    }
    let count = pass_content(framing_of(head), source, sink, room)?;
    go_past_content(state, head, count);
    Ok(())
}

/// Moves to the state after a content of `count` bytes.
fn go_past_content(state: &mut ClientState, head: &ReplyHead, count: u64)
    ensures { (content : List ℕ) → length content ≡ count → state.new ≡ after_content head.now content state.old }
{
    state.start = state.start.saturating_add(count);
    state.kept = keeps(head);
    state.replies = wanted_after(head.length, state.replies);
}

/// Whether the client accepts the content of a reply with this head.
fn takes(wish: &Wish<'_>, head: &ReplyHead) -> bool
    ensures { IsTrue result ↔ Takes (wish_of wish.now) head.now }
{
    match wish {
        Wish::Whole(_) => !head.chunked,
        Wish::News(..) => true,
    }
}

/// The way in which the content of a reply ends.
fn framing_of(head: &ReplyHead) -> ReplyFraming
    ensures { result ≡ framing_of head.now }
{
    if head.chunked {
        return ReplyFraming::Chunked;
    }
    match head.length {
        Some(count) => ReplyFraming::Counted(count),
        None => ReplyFraming::ToTheEnd,
    }
}

/// Whether the connection is kept after a reply.
fn keeps(head: &ReplyHead) -> bool
    ensures { result ≡ keeps head.now }
{
    !head.closes && head.chunked
}

/// The number of replies still wanted after one of this length.
fn wanted_after(length: Option<u64>, replies: u64) -> u64
    ensures { result ≡ wanted_after length replies }
{
    match length {
        Some(_) => 0,
        None => replies.saturating_sub(1),
    }
}
