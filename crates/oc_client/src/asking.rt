//! A request, on a new connection or on one that was kept.

ghost use Rattle.std.specs.Prelude.{◌≡◌, None, Some, IfErr, OnOk, IsErrOf};
ghost use Rattle.oc_client.specs.Turns.{Turn, Speaks, SpeaksLast, asking, IsCut};
ghost use Rattle.oc_client.specs.Wishes.{dialled_at};
ghost use Rattle.oc_io.specs.Faults.{NoFall, Rose};
ghost use Rattle.oc_link.specs.Calls.{Told};

use crate::client_state::ClientState;
use crate::end::GetEnd;
use oc_link::Dialler;

/// Writes a request on a new connection, or on the one that was kept.
pub(crate) fn ask<L: Dialler>(
    state: &ClientState,
    request: &[u8],
    link: &mut L,
) -> Result<(), GetEnd>
    ensures asked { OnOk result
        (Told (Speaks (asking (dialled_at state.now.kept state.now) request.now)) (L.story link.old) (L.story link.new)) }
    ensures cut { IfErr result (λ end. (end ≡ GetEnd.Link) × ((turn : Turn)
        × IsCut (dialled_at state.now.kept state.now) request.now turn
        × Told (SpeaksLast turn) (L.story link.old) (L.story link.new))) }
    ensures count { NoFall (L.faults link.old) (L.faults link.new) }
    ensures cause { IsErrOf result GetEnd.Link → Rose (L.faults link.old) (L.faults link.new) }
{
    if state.kept {
        ask_again(request, link)
    } else {
        ask_at(state.target.address(), request, link)
    }
}

/// Writes a request on a new connection to this address.
fn ask_at<L: Dialler>(address: &str, request: &[u8], link: &mut L) -> Result<(), GetEnd>
    ensures asked { OnOk result
        (Told (Speaks (asking (Some address.now) request.now)) (L.story link.old) (L.story link.new)) }
    ensures cut { IfErr result (λ end. (end ≡ GetEnd.Link) × ((turn : Turn)
        × IsCut (Some address.now) request.now turn
        × Told (SpeaksLast turn) (L.story link.old) (L.story link.new))) }
    ensures count { NoFall (L.faults link.old) (L.faults link.new) }
    ensures cause { IsErrOf result GetEnd.Link → Rose (L.faults link.old) (L.faults link.new) }
{
    match link.dial(address, request) {
        Ok(()) => Ok(()),
        Err(_) => Err(GetEnd::Link),
    }
}

/// Writes a request on the connection of the previous request.
fn ask_again<L: Dialler>(request: &[u8], link: &mut L) -> Result<(), GetEnd>
    ensures asked { OnOk result
        (Told (Speaks (asking None request.now)) (L.story link.old) (L.story link.new)) }
    ensures cut { IfErr result (λ end. (end ≡ GetEnd.Link) × ((turn : Turn)
        × IsCut None request.now turn
        × Told (SpeaksLast turn) (L.story link.old) (L.story link.new))) }
    ensures count { NoFall (L.faults link.old) (L.faults link.new) }
    ensures cause { IsErrOf result GetEnd.Link → Rose (L.faults link.old) (L.faults link.new) }
{
    match link.dial_more(request) {
        Ok(()) => Ok(()),
        Err(_) => Err(GetEnd::Link),
    }
}
