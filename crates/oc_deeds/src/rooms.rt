//! The work on a connection that has room, or that is over.

ghost use Rattle.std.specs.Prelude.{◌≡◌, ◌&&◌};
ghost use Rattle.std.specs.Option.{option_copied};
ghost use Rattle.oc_link.specs.Failures.{is_failure};
ghost use Rattle.oc_deeds.specs.Rooms.{is_told};
ghost use Rattle.oc_deeds.specs.Rooms as rooms;
ghost use Rattle.oc_deeds.specs.Works.{work_on};

use crate::work::{Transfer, Work};
use crate::works::index_on;
use oc_link::{ConnectionId, Loss};

/// The content that is given on a connection.
pub fn transfer_of(works: &[Work], connection: ConnectionId) -> Option<Transfer>
    ensures { result ≡ rooms.transfer_of (work_on connection works.now) }
{
    match work_on(works, connection) {
        Some(Work::Content(transfer)) => Some(*transfer),
        _ => None,
    }
}

/// The work on a connection.
fn work_on(works: &[Work], connection: ConnectionId) -> Option<&Work>
    ensures { option_copied result ≡ work_on connection works.now }
{
    match index_on(works, connection) {
        Some(index) => works.get(index),
        None => None,
    }
}

/// Whether the request of a connection that is over had an input, so that a line says if its reply was not sent. Where no
/// work is left on the connection, a request had one whose reply was given whole: only then the link was asked to watch
/// such a connection.
pub fn is_told(works: &[Work], connection: ConnectionId) -> bool
    ensures { result ≡ is_told (work_on connection works.now) }
{
    match work_on(works, connection) {
        None => true,
        Some(Work::Content(transfer) | Work::Aside(transfer)) => transfer.told,
        Some(Work::Waits(_)) => false,
    }
}

/// Whether a line tells of this loss; `told` says that the request had an input.
pub fn tells(loss: Loss, told: bool) -> bool
    ensures { result ≡ (is_failure loss && told) }
{
    match loss {
        Loss::Failed => told,
        Loss::GaveWay => false,
    }
}
