//! One node: the writes, messages and answer of each input.

ghost use Rattle.std.specs.Prelude.{◌≡◌, ◌≤◌, IfOk, OnOk, Some};
ghost use Rattle.oc_base.specs.Shelves.{IsShelf};
ghost use Rattle.oc_model.specs.Lawful.{AreRecords, IsInput};
ghost use Rattle.oc_model.specs.declared.want.Want.{Want};
ghost use Rattle.oc_node.specs.Applying.{CanApply};
ghost use Rattle.oc_node.specs.NodeView.{NodeView};
ghost use Rattle.oc_node.specs.Planned.{IsWanting};

mod inputs;
mod spelled;

use crate::node::steps::inputs::{NODES, input_in};
use crate::node::steps::spelled::spelled;
use oc_base::{MAX_BASE_ACKED, MAX_GROUP_BYTES, MAX_LOG_LENGTH, NodeId, Shelf, USUAL_CHUNK_BYTES};
use oc_model::{Input, Record};
use oc_node::{Node, Outcome, Plan};
use oc_record::decode;
use std::alloc::Global;
use test_tools::{Fault, RowFields, RowStep, group_in};

/// An upper bound on the steps of a row.
const MOST_STEPS: u32 = 100;

/// Appends the words of a row: the result of each step.
pub fn put_words(alloc: Global, given: &str, said: &mut String) -> Result<(), Fault> {
    let mut fields = RowFields::of(given, ' ');
    let mut node = node_in(alloc, &mut fields)?;
    let acted = act_all(alloc, &mut node, fields, said);
    drop(node);
    acted
}

/// Performs the steps after the held group, with a space after the result of each.
fn act_all(
    alloc: Global,
    node: &mut Node,
    mut fields: RowFields<'_>,
    said: &mut String,
) -> Result<(), Fault> {
    let held = RowStep::of(fields.text());
    for _ in 0..MOST_STEPS {
        if fields.is_empty() {
            break;
        }
        act(alloc, node, held, RowStep::of(fields.text()), said)?;
        said.push_str(" ")?;
    }
    Ok(())
}

/// The node of the first fields: its id, the length of the chain, and the records that it recovers from.
fn node_in(alloc: Global, fields: &mut RowFields<'_>) -> Result<Node, Fault> {
    let me = fields.node()?;
    let chain = fields.small()?;
    let list = records_in(alloc, fields.list())?;
    recovered(alloc, me, chain, &list)
}

/// The records of these bytes.
fn records_in(alloc: Global, fields: RowFields<'_>) -> Result<Vec<Record>, Fault>
    ensures { IfOk result (λ list. AreRecords 5 list.items) }
{
    let bytes = spelled(alloc, fields)?;
    match decode(alloc, &bytes, NODES) {
        Ok(list) => Ok(list),
        Err(_) => Err(Fault::Field),
    }
}

/// The node that recovers from these records. Node 3 is in area 4, and each other in area 0.
fn recovered(alloc: Global, me: NodeId, chain: u32, list: &[Record]) -> Result<Node, Fault>
    requires { AreRecords 5 list.now }
{
    if me.0 < 1 || me.0 > NODES || chain < 1 || chain > NODES {
        return Err(Fault::Field);
    }
    let areas = vec![in alloc; 0, 0, 4, 0, 0]?;
    let mut node = Node::new(alloc, me, NODES, chain, USUAL_CHUNK_BYTES, areas)?;
    match node.recover(list) {
        Ok(()) => Ok(node),
        Err(_) => {
            drop(node);
            Err(Fault::Memory)
        }
    }
}

/// Performs a step, and appends its result.
fn act(
    alloc: Global,
    node: &mut Node,
    held: RowStep<'_>,
    step: RowStep<'_>,
    said: &mut String,
) -> Result<(), Fault> {
    match step.word {
        "state" => put_state(node, said),
        "again" => recover_again(alloc, node, said),
        _ => take(alloc, node, held, step, said),
    }
}

/// Gives a node the input of a step.
fn take(
    alloc: Global,
    node: &mut Node,
    held: RowStep<'_>,
    step: RowStep<'_>,
    said: &mut String,
) -> Result<(), Fault> {
    let shelf = shelf_in(alloc, held)?;
    let input = input_in(alloc, step, node.id())?;
    give(alloc, node, &input, &shelf, held, said)
}

/// Gives a node an input, and appends the records that it writes, the change of its content, its
/// answer and its messages.
fn give(
    alloc: Global,
    node: &mut Node,
    input: &Input,
    shelf: &[Shelf],
    held: RowStep<'_>,
    said: &mut String,
) -> Result<(), Fault>
    requires input { IsInput 5 node.old.control.me input.now }
    requires shelf { IsShelf shelf.now }
{
    if node.log().length() > MAX_LOG_LENGTH || node.nodes() != NODES {
        return Err(Fault::Unready);
    }
    let mut plan = node.plan(input, shelf)?;
    show_and_fill(alloc, &mut plan, held, said)?;
    put_outcome(&node.apply(plan), said)
}

/// Appends a plan, and then fills it with the bytes that it wants.
fn show_and_fill(
    alloc: Global,
    plan: &mut Plan,
    held: RowStep<'_>,
    said: &mut String,
) -> Result<(), Fault>
    requires { (w : Want) → plan.old.wants ≡ Some w → IsWanting plan.old w.count }
    ensures { OnOk result ((v : NodeView) → CanApply v plan.old → CanApply v plan.new) }
{
    put_plan(plan, said)?;
    fill(alloc, plan, held)
}

fn put_outcome(outcome: &Outcome, said: &mut String) -> Result<(), Fault> {
    Ok(write!(said, "{:?} {:?}", outcome.answer, outcome.sends)?)
}

/// The shelf of a node that holds this group, or none: its length, its bytes, and whether it is sealed.
fn shelf_in(alloc: Global, held: RowStep<'_>) -> Result<Vec<Shelf>, Fault>
    ensures { IfOk result (λ shelf. IsShelf shelf.items) }
{
    if held.word == "-" {
        return Ok(Vec::new(alloc));
    }
    let mut fields = held.fields;
    let group = group_in(held.word)?;
    let held = fields.number()?;
    if held > MAX_GROUP_BYTES {
        return Err(Fault::Field);
    }
    let _bytes = fields.text();
    let sealed = fields.text() == "sealed";
    let line = Shelf {
        group,
        held,
        sealed,
    };
    Ok(vec![in alloc; line]?)
}

/// Appends the records of a plan, the bytes of the group that it wants, the offset from which it
/// keeps those of the input, and whether they seal the group.
fn put_plan(plan: &Plan, said: &mut String) -> Result<(), Fault> {
    write!(said, "{:?} ", plan.records())?;
    if let Some(want) = plan.wants() {
        write!(said, "wants:{},{} ", want.start, want.count)?;
    }
    if let Some(place) = plan.keeps() {
        write!(said, "keeps:{place} ")?;
    }
    Ok(said.push_str(if plan.seals() { "seals " } else { "" })?)
}

/// Fills the chunk of a plan with the bytes that it wants of the group.
fn fill(alloc: Global, plan: &mut Plan, held: RowStep<'_>) -> Result<(), Fault>
    requires { (w : Want) → plan.old.wants ≡ Some w → IsWanting plan.old w.count }
    ensures { OnOk result ((v : NodeView) → CanApply v plan.old → CanApply v plan.new) }
{
    let Some(want) = plan.wants() else {
        return Ok(());
    };
    let mut fields = held.fields;
    let _length = fields.text();
    let bytes = fields.bytes(alloc)?;
    let start = want.start as usize;
    let count = want.count as usize;
    if start > bytes.len() || count > bytes.len() - start {
        return Err(Fault::Field);
    }
    plan.fill(bytes[start..start + count].to_vec(alloc)?);
    Ok(())
}

/// Appends the mode, the number of the last ask, the rank, the node's own number with its clients,
/// the length of the acknowledged part of the log, the ancestors, and the time.
fn put_state(node: &Node, said: &mut String) -> Result<(), Fault> {
    let mode = node.mode();
    let seq = node.seq();
    let rank = node.rank();
    write!(said, "{mode:?} {seq} {rank:?} ")?;
    let number = node.number();
    let clients = node.clients();
    let acked = node.log().acked();
    let length = node.log().length();
    let now = node.now();
    write!(said, "{number}:{clients} {acked}/{length} {now} ")?;
    Ok(write!(said, "{:?}", node.ancestors())?)
}

/// Puts a snapshot of a node, and the state of the node that recovers from it.
fn recover_again(alloc: Global, node: &Node, said: &mut String) -> Result<(), Fault> {
    if node.log().length() > MAX_BASE_ACKED || node.nodes() != NODES {
        return Err(Fault::Unready);
    }
    let list = node.snapshot(1)?;
    put_recovered(alloc, node, &list, said)
}

/// Puts these records of a node, and the state of the node that recovers from them.
fn put_recovered(
    alloc: Global,
    node: &Node,
    list: &[Record],
    said: &mut String,
) -> Result<(), Fault>
    requires { AreRecords 5 list.now }
{
    write!(said, "{list:?} ")?;
    let again = recovered(alloc, node.id(), node.chain(), list)?;
    let put = put_state(&again, said);
    drop(again);
    put
}
