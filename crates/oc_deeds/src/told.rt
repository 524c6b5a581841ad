//! Inputs that are taken, with their lines.

ghost use Rattle.std.specs.Prelude.{◌≡◌, IfErr, IfOk, IfSome, OnOk};
ghost use Rattle.oc_model.specs.Lawful.{IsInput};
ghost use Rattle.oc_model.specs.Step.{step};
ghost use Rattle.oc_wire.specs.Spelling.{HasSpelling};
ghost use Rattle.oc_deeds.specs.Deeds.{back_to, sender_of};
ghost use Rattle.oc_deeds.specs.Telling.{accepts_in, accepts_told, takes_ahead, takes_in, takes_told};

use crate::asked::Accepted;
use crate::brief::known_before;
use crate::doer::Doer;
use crate::ends::TurnEnd;
use oc_model::Input;

/// Takes an input, and writes its lines, before it and after it.
pub fn takes_in<W: Doer>(doer: &mut W, input: Input) -> Result<(), TurnEnd>
    requires serving { W.serving doer.old }
    requires input { IsInput (W.running doer.old).node.control.nodes (W.running doer.old).node.control.me input }
    ensures did { OnOk result (W.does (takes_in input) doer.old doer.new) }
    ensures breaks { IfErr result (λ end. W.stops end (takes_in input) doer.old doer.new) }
{
    W::parts_go_on();
    W::parts_stop();
    doer.says_ahead(&input)?;
    takes_told(doer, input)
}

/// Takes the input of a request, and writes its lines, before it and after it.
pub fn accepts_in<W: Doer>(doer: &mut W, input: Input) -> Result<Accepted, TurnEnd>
    requires serving { W.serving doer.old }
    requires input { IsInput (W.running doer.old).node.control.nodes (W.running doer.old).node.control.me input }
    ensures did { OnOk result (W.does (accepts_in input) doer.old doer.new) }
    ensures answer { IfOk result (λ accepted. W.honest doer.old → accepted.answer ≡ (step (W.running doer.old).node input).answer) }
    ensures back { IfOk result (λ accepted. W.honest doer.old → accepted.back ≡ back_to (sender_of input) (step (W.running doer.old).node input).sends) }
    ensures text { IfOk result (λ accepted. IfSome accepted.back (λ m. HasSpelling m.body)) }
    ensures breaks { IfErr result (λ end. W.stops end (accepts_in input) doer.old doer.new) }
{
    W::parts_go_on();
    W::parts_stop();
    doer.says_ahead(&input)?;
    accepts_told(doer, input)
}

/// Takes an input without lines after it, and writes those before it.
pub fn takes_ahead<W: Doer>(doer: &mut W, input: Input) -> Result<(), TurnEnd>
    requires serving { W.serving doer.old }
    requires input { IsInput (W.running doer.old).node.control.nodes (W.running doer.old).node.control.me input }
    ensures did { OnOk result (W.does (takes_ahead input) doer.old doer.new) }
    ensures breaks { IfErr result (λ end. W.stops end (takes_ahead input) doer.old doer.new) }
{
    W::parts_go_on();
    W::parts_stop();
    doer.says_ahead(&input)?;
    let _answer = doer.takes(input)?;
    Ok(())
}

/// Takes an input, and writes the lines after it.
fn takes_told<W: Doer>(doer: &mut W, input: Input) -> Result<(), TurnEnd>
    requires serving { W.serving doer.old }
    requires input { IsInput (W.running doer.old).node.control.nodes (W.running doer.old).node.control.me input }
    ensures did { OnOk result (W.does (takes_told input) doer.old doer.new) }
    ensures breaks { IfErr result (λ end. W.stops end (takes_told input) doer.old doer.new) }
{
    W::parts_go_on();
    W::parts_stop();
    doer.may_end();
    let before = known_before(doer.alloc(), doer.log(), doer.node(), &input)?;
    let answer = doer.takes(input)?;
    doer.says_after(before, answer)
}

/// Takes the input of a request, and writes the lines after it.
fn accepts_told<W: Doer>(doer: &mut W, input: Input) -> Result<Accepted, TurnEnd>
    requires serving { W.serving doer.old }
    requires input { IsInput (W.running doer.old).node.control.nodes (W.running doer.old).node.control.me input }
    ensures did { OnOk result (W.does (accepts_told input) doer.old doer.new) }
    ensures answer { IfOk result (λ accepted. W.honest doer.old → accepted.answer ≡ (step (W.running doer.old).node input).answer) }
    ensures back { IfOk result (λ accepted. W.honest doer.old → accepted.back ≡ back_to (sender_of input) (step (W.running doer.old).node input).sends) }
    ensures text { IfOk result (λ accepted. IfSome accepted.back (λ m. HasSpelling m.body)) }
    ensures breaks { IfErr result (λ end. W.stops end (accepts_told input) doer.old doer.new) }
{
    W::parts_go_on();
    W::parts_stop();
    doer.may_end();
    let before = known_before(doer.alloc(), doer.log(), doer.node(), &input)?;
    let accepted = doer.accepts(input)?;
    doer.says_after(before, accepted.answer)?;
    Ok(accepted)
}
