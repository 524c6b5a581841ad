//! Search for lines of inputs that were not taken, from the lines of each node alone.

ghost use Rattle.std.specs.Prelude.{◌≡◌, ◌+◌, ◌<◌, ◌≤◌, if◌then◌else◌, [], ◌∷◌, ◌++◌, Some, None, true, option_map, IfOk, OnOk, length, drop, slice_get};
ghost use Rattle.oc_base.specs.Lawful.{IsNode};
ghost use Rattle.oc_model.specs.Lawful.{IsInput};
ghost use Rattle.oc_model.specs.Step.{step};
ghost use Rattle.oc_merge.specs.AfterLineView.{view_of};
ghost use Rattle.oc_merge.specs.Folds.{AreFoldsAt, IsOfNetwork, after_any, after_input, after_line, nothing_more};
ghost use Rattle.oc_merge.specs.Heads.{AreNextPlaces};
ghost use Rattle.oc_merge.specs.Recorded.{are_there, found_after, is_there, own_told, picked, records_there};
ghost use Rattle.oc_merge.specs.Records.{AreRecords, IsLine};
ghost use Rattle.oc_merge.specs.declared.told.ToldLine.{ToldLine as Line};
ghost use Rattle.oc_merge.specs.declared.told.Told.TheVariants.{Came};
ghost use Rattle.oc_wire.specs.declared.fault.WireFault.TheVariants.{Memory as NoMemory};

use crate::after_line::AfterLine;
use crate::alone::Alone;
use crate::places::find_places;
use crate::records::Records;
use crate::told::{Told, ToldLine};
use oc_base::{Memory, NodeId};
use oc_model::Input;
use oc_wire::{WireFault, decode};
use std::alloc::Global;

/// The digits of the files that the first start after a line finds, if its record tells them.
fn found_after<'a>(lines: &'a [ToldLine], next: &[usize], place: usize) -> Option<&'a [u8]>
    requires next { AreNextPlaces lines.now next.now }
    requires place { place < length lines.now }
    ensures { (l : Line) → slice_get lines.now place ≡ Some l → option_map (λ digits. digits.now) result ≡ found_after (own_told l.node (drop (place + 1) lines.now)) }
{
    let mut behind = next[place];
    'starts: while behind < lines.len() {
        match &lines[behind].told {
            Told::Started(None) => behind = next[behind],
            Told::Started(Some(digits)) => return Some(digits.items()),
            _ => return None,
        }
    }
    None
}

/// The node after an input that was taken.
fn after_taken<A: Alone>(one: A, input: &Input) -> Result<AfterLine<A>, Memory>
    requires { IsInput (A.node one).control.nodes (A.node one).control.me input.now }
    ensures { IfOk result (λ behind. view_of A.node behind ≡ record { node = Some (step (A.node one) input.now).node; there = true }) }
{
    let mut one = one;
    one.take(input)?;
    Ok(AfterLine {
        node: Some(one),
        there: true,
    })
}

/// The node after an input, given the files that the first start after the line finds.
fn after_input<A: Alone>(
    one: A,
    input: &Input,
    found: Option<&[u8]>,
) -> Result<AfterLine<A>, Memory>
    requires { IsInput (A.node one).control.nodes (A.node one).control.me input.now }
    ensures { IfOk result (λ behind. view_of A.node behind ≡ after_input A.digest (A.node one) input.now (option_map (λ digits. digits.now) found.entry)) }
{
    let Some(digits) = found else {
        return after_taken(one, input);
    };
    if digits != one.files()?.items() {
        return after_taken(one, input);
    }
    let without = one.restarted()?;
    let mut with = one;
    with.take(input)?;
    if digits == with.files()?.items() {
        Ok(AfterLine {
            node: Some(with),
            there: true,
        })
    } else {
        Ok(AfterLine {
            node: Some(without),
            there: false,
        })
    }
}

/// The node after a line that leaves its state unknown.
fn after_lost<A: Alone>() -> AfterLine<A>
    ensures { view_of A.node result ≡ nothing_more }
{
    AfterLine {
        node: None,
        there: true,
    }
}

/// The node after a message with these bytes.
fn after_message<A: Alone>(
    alloc: Global,
    one: A,
    nodes: u32,
    me: NodeId,
    bytes: &[u8],
    found: Option<&[u8]>,
) -> Result<AfterLine<A>, Memory>
    requires one { IsOfNetwork nodes me (Some (A.node one)) }
    requires me { IsNode nodes me }
    ensures { IfOk result (λ behind. view_of A.node behind ≡ after_line A.digest nodes me (A.node one) (Came bytes.now) (option_map (λ digits. digits.now) found.entry)) }
{
    match decode(alloc, bytes, nodes) {
        Ok(message) => {
            if message.to == me {
                after_input(one, &Input::Delivered(message), found)
            } else {
                Ok(after_lost())
            }
        }
        Err(fault) => after_fault(fault),
    }
}

/// The node after bytes that are no message.
fn after_fault<A: Alone>(fault: WireFault) -> Result<AfterLine<A>, Memory>
    ensures lost { IfOk result (λ behind. view_of A.node behind ≡ nothing_more) }
    ensures other { OnOk result (fault ≡ NoMemory → ⊥) }
{
    match fault {
        WireFault::Memory => Err(Memory),
        _ => Ok(after_lost()),
    }
}

/// The node after a line.
fn after_line<A: Alone>(
    alloc: Global,
    one: A,
    nodes: u32,
    line: &ToldLine,
    found: Option<&[u8]>,
) -> Result<AfterLine<A>, Memory>
    requires one { IsOfNetwork nodes line.now.node (Some (A.node one)) }
    requires line { IsLine nodes line.now }
    ensures { IfOk result (λ behind. view_of A.node behind ≡ after_line A.digest nodes line.now.node (A.node one) line.now.told (option_map (λ digits. digits.now) found.entry)) }
{
    match &line.told {
        Told::Started(_) => Ok(AfterLine {
            node: Some(one.restarted()?),
            there: true,
        }),
        Told::Came(bytes) => after_message(alloc, one, nodes, line.node, bytes.items(), found),
        Told::Took(input) => after_input(one, input, found),
    }
}

/// Plays the line at an index on its node, and notes whether the line is kept.
fn fold_line<A: Alone>(
    alloc: Global,
    records: &Records,
    next: &[usize],
    folds: &mut [Option<A>],
    place: usize,
) -> Result<bool, Memory>
    requires records { AreRecords records.now }
    requires next { AreNextPlaces records.now.lines next.now }
    requires place { place < length records.now.lines }
    requires folds { AreFoldsAt A.node A.digest records.now place folds.old }
    ensures there { IfOk result (λ there. (l : Line) → slice_get records.now.lines place ≡ Some l → there ≡ is_there A.digest records.now place l) }
    ensures folds { OnOk result (AreFoldsAt A.node A.digest records.now (place + 1) folds.new) }
{
    let line = &records.lines[place];
    let at = line.node.index();
    let Some(one) = folds[at].take() else {
        return Ok(true);
    };
    let found = found_after(&records.lines, next, place);
    let behind = after_line(alloc, one, records.nodes(), line, found)?;
    folds[at] = behind.node;
    Ok(behind.there)
}

/// All nodes, new.
fn new_nodes<A: Alone>(alloc: Global, records: &Records) -> Result<Vec<Option<A>>, Memory>
    requires { AreRecords records.now }
    ensures { IfOk result (λ folds. AreFoldsAt A.node A.digest records.now 0 folds.items) }
{
    let count = records.nodes();
    let mut folds = Vec::with_capacity(alloc, count as usize)?;
    for before in 0..count {
        let one = A::new(alloc, &records.header, NodeId(before + 1))?;
        folds.push(Some(one))?;
    }
    Ok(folds)
}

/// For each line, whether it is kept.
fn are_there<A: Alone>(alloc: Global, records: &Records) -> Result<Vec<bool>, Memory>
    requires { AreRecords records.now }
    ensures { IfOk result (λ there. there.items ≡ are_there A.digest records.now 0 records.now.lines) }
{
    let next = find_places(alloc, records.nodes(), &records.lines)?.next;
    let mut folds = new_nodes::<A>(alloc, records)?;
    let mut there = Vec::with_capacity(alloc, records.lines.len())?;
    for place in 0..records.lines.len() {
        there.push(fold_line(alloc, records, &next, &mut folds, place)?)?;
    }
    Ok(there)
}

/// Appends a line, if it is kept.
fn push_if(left: &mut Vec<ToldLine>, there: bool, line: ToldLine) -> Result<(), Memory>
    ensures { OnOk result (left.new.items ≡ (if there then left.old.items ++ line ∷ [] else left.old.items)) }
{
    if there {
        left.push(line)?;
    }
    Ok(())
}

/// The lines that are kept.
fn picked(alloc: Global, there: &[bool], lines: Vec<ToldLine>) -> Result<Vec<ToldLine>, Memory>
    requires { length lines.items ≤ length there.now }
    ensures { IfOk result (λ left. left.items ≡ picked there.now lines.items) }
{
    let mut lines = lines;
    let mut left = Vec::new(alloc);
    'lines: while let Some(line) = lines.pop() {
        push_if(&mut left, there[lines.len()], line)?;
    }
    left.reverse();
    Ok(left)
}

/// The records without the lines of inputs that were not taken.
///
/// A running node writes the line of an input before it takes the input, so the last line before a
/// stop may belong to an input that was not taken. It does if the next start finds the files of the
/// node without this input, and not those with it: the lines of the node alone show this, played on
/// a new node. After a message to another node, and after bytes that are no message, the state of
/// the node is unknown and all its lines are kept.
pub fn without_missed<A: Alone>(alloc: Global, records: Records) -> Result<Records, Memory>
    requires { AreRecords records }
    ensures there { IfOk result (λ left. left ≡ records_there A.digest records) }
    ensures lawful { IfOk result AreRecords }
{
    let there = are_there::<A>(alloc, &records)?;
    let Records { header, lines } = records;
    Ok(Records {
        header,
        lines: picked(alloc, &there, lines)?,
    })
}
