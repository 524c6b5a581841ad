//! An input at a node that is up, and the messages it sends: all memory is taken first, and only
//! then are the durable changes written and the messages sent.

ghost use Rattle.std.specs.Prelude.{◌≡◌, ◌++◌, true, IfOk, OnOk, OnErr};
ghost use Rattle.oc_keep.specs.Promises.{IsSameNode};
ghost use Rattle.oc_model.specs.Lawful.{IsInput};
ghost use Rattle.oc_model.specs.Step.{step};
ghost use Rattle.oc_world.specs.ProcessView.{Renews};

use crate::net::Net;
use crate::process::Process;
use oc_base::Memory;
use oc_model::{Answer, Input};

/// Gives an input to a node that is up, and puts its messages into the net. If memory runs out, the
/// node and the net are unchanged; the files may have been turned over.
pub(crate) fn act(process: &mut Process, net: &mut Net, input: &Input) -> Result<Answer, Memory>
    requires up { process.old.process.up ≡ true }
    requires input { IsInput process.old.process.node.control.nodes process.old.process.node.control.me input.now }
    requires nodes { net.old.nodes ≡ process.old.process.node.control.nodes }
    ensures process { OnOk result (process.new.process ≡ record { node = (step process.old.process.node input.now).node; up = true }) }
    ensures messages { OnOk result (net.new.messages ≡ net.old.messages ++ (step process.old.process.node input.now).sends) }
    ensures answer { IfOk result (λ answer. answer ≡ (step process.old.process.node input.now).answer) }
    ensures same { IsSameNode process.old.process.node.control process.new.process.node.control }
    ensures nodes { net.new.nodes ≡ net.old.nodes }

    // Control files that are ripe are turned over.
    ensures renews { OnOk result (Renews process.old.kept process.new.kept) }
    ensures err { OnErr result ((process.new.process ≡ process.old.process) × (net.new.messages ≡ net.old.messages)) }
{
    let ready = process.ready(input)?;
    net.send_all(ready.sends())?;
    let outcome = process.commit(ready);
    Ok(outcome.answer)
}
