//! The messages that a turn dials.

ghost use Rattle.std.specs.Prelude.{IfErr, OnOk};
ghost use Rattle.oc_deeds.specs.Sends.{sends};
ghost use Rattle.oc_deeds.specs.declared.choosing.TheConstants.{MAX_DIALS as MOST};

use crate::choosing::{MAX_DIALS, free_number, next_to_dial};
use crate::doer::Doer;
use crate::ends::TurnEnd;

/// Dials messages, as long as one may be dialled.
pub fn sends<W: Doer>(doer: &mut W) -> Result<(), TurnEnd>
    requires { W.serving doer.old }
    ensures did { OnOk result (W.does (sends MOST) doer.old doer.new) }
    ensures breaks { IfErr result (λ end. W.stops end (sends MOST) doer.old doer.new) }
{
    W::parts_go_on();
    W::parts_stop();
    'messages: for done in 0..MAX_DIALS {
        match next_to_dial(doer.outbox(), doer.dials_made()) {
            Some(index) => {
                let number = free_number(doer.dials_made());
                doer.dials(index, number)?;
            }
            None => return Ok(()),
        }
    }
    Ok(())
}
