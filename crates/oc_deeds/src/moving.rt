//! The fate of connections: room, loss, and contents that go on.

ghost use Rattle.std.specs.Prelude.{IfErr, OnOk};
ghost use Rattle.oc_deeds.specs.Rooms.{goes_on, takes_loss, takes_room};

use crate::choosing::prospect_of;
use crate::doer::Doer;
use crate::ends::TurnEnd;
use crate::rooms::{is_told, tells, transfer_of};
use crate::work::Transfer;
use oc_link::{ConnectionId, Loss};
use oc_routes::Prospect;

/// A connection has room for more of its reply.
pub fn takes_room<W: Doer>(doer: &mut W, connection: ConnectionId, now: u64) -> Result<(), TurnEnd>
    requires { W.serving doer.old }
    ensures did { OnOk result (W.does (takes_room connection now) doer.old doer.new) }
    ensures breaks { IfErr result (λ end. W.stops end (takes_room connection now) doer.old doer.new) }
{
    W::parts_go_on();
    W::parts_stop();
    match transfer_of(doer.works(), connection) {
        Some(transfer) => goes_on(doer, transfer, now),
        None => Ok(()),
    }
}

/// A content is given its next piece, is laid aside, or is broken off.
pub fn goes_on<W: Doer>(doer: &mut W, transfer: Transfer, now: u64) -> Result<(), TurnEnd>
    requires { W.serving doer.old }
    ensures did { OnOk result (W.does (goes_on transfer now) doer.old doer.new) }
    ensures breaks { IfErr result (λ end. W.stops end (goes_on transfer now) doer.old doer.new) }
{
    W::parts_go_on();
    W::parts_stop();
    match prospect_of(&transfer, doer.shelf(), now) {
        Prospect::Gives => doer.gives(transfer, now),
        Prospect::Waits => doer.lays_aside(transfer),
        Prospect::Breaks => {
            doer.breaks_off(transfer.connection);
            Ok(())
        }
    }
}

/// A connection is over before its reply was sent whole.
pub fn takes_loss<W: Doer>(
    doer: &mut W,
    connection: ConnectionId,
    loss: Loss,
) -> Result<(), TurnEnd>
    requires { W.serving doer.old }
    ensures did { OnOk result (W.does (takes_loss connection loss) doer.old doer.new) }
    ensures breaks { IfErr result (λ end. W.stops end (takes_loss connection loss) doer.old doer.new) }
{
    W::parts_go_on();
    W::parts_stop();
    let was_told = is_told(doer.works(), connection);
    doer.drops(connection, tells(loss, was_told))
}
