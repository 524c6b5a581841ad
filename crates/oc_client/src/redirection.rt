//! Handling of redirections.

ghost use Rattle.std.specs.Prelude.{◌≡◌, ℕ, ◌<◌, List, Some, IfErr, OnOk};
ghost use Rattle.oc_client.specs.Addresses.{LeadsTo};
ghost use Rattle.oc_client.specs.Redirecting.{Follows, StaysAt, sent_to};
ghost use Rattle.url.specs.Parts.{Parts};

use crate::address::{UrlFault, read_location};
use crate::client_state::ClientState;
use crate::end::GetEnd;
use crate::target::Target;
use oc_base::Text;
use std::alloc::Global;

/// Moves to the state that follows a 302 with this Location.
pub(crate) fn redirect(
    alloc: Global,
    state: &mut ClientState,
    location: Option<Text>,
) -> Result<(), GetEnd>
    ensures follows { OnOk result (Follows state.old location state.new) }
    ensures stays { IfErr result (λ end. StaysAt state.old location end) }
{
    let Some(location) = location else {
        return Err(GetEnd::Reply);
    };
    let url = match read_location(state.target.url(), location.items()) {
        Ok(url) => url,
        Err(UrlFault::Bad) => return Err(GetEnd::Reply),
        Err(UrlFault::Memory) => return Err(GetEnd::Memory),
    };
    if state.redirections == 0 {
        return Err(GetEnd::Redirects);
    }
    go_to(state, Target::new(alloc, url)?);
    Ok(())
}

/// Moves to the state that asks for another URL, on a new connection.
fn go_to(state: &mut ClientState, target: Target)
    requires { 0 < state.old.redirections }
    ensures { state.new ≡ sent_to target state.old }
{
    state.target = target;
    state.led = true;
    state.kept = false;
    state.redirections -= 1;
}
