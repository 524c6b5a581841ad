//! Works that are due by themselves.

ghost use Rattle.std.specs.Prelude.{◌≡◌, is_some, slice_get, true};
ghost use Rattle.oc_deeds.specs.Asks.{due_of};
ghost use Rattle.oc_deeds.specs.Works.{client_input, pending};

use crate::work::{Pending, Transfer, Waiting, Work, client_input, pending_of};

/// The next step of a work that is due by itself.
#[derive(Drop)]
pub enum Due {
    /// A content goes on.
    Aside(Transfer),
    /// A client that waits is answered.
    Waits(Pending),
    Nothing,
}

/// The next step of the work at an index.
pub fn due_of(works: &[Work], index: usize) -> Due
    ensures { result ≡ due_of (slice_get works.now index) }
{
    match works.get(index) {
        Some(Work::Aside(transfer)) => Due::Aside(*transfer),
        Some(Work::Waits(waiting)) => Due::Waits(to_wake(waiting)),
        Some(Work::Content(_)) => Due::Nothing,
        None => Due::Nothing,
    }
}

/// A request that waits is to be answered.
fn to_wake(waiting: &Waiting) -> Pending
    ensures { result ≡ pending waiting.now.connection waiting.now.request (is_some (client_input waiting.now.request.asked)) true }
{
    let request = &waiting.request;
    let input = client_input(&request.asked);
    pending_of(waiting.connection, request, input.is_some(), true)
}
