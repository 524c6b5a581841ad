//! Trials: a node is loaded, and takes inputs up to the first one that is refused.

ghost use Rattle.std.specs.Prelude.{IfOk};
ghost use Rattle.std.specs.List.{AllByRecursion};
ghost use Rattle.oc_model.specs.Lawful.{IsInput};

use crate::node::files::{handed_back, show};
use crate::node::given::Given;
use crate::node::inputs::{NODES, input_in};
use oc_base::{NodeId, USUAL_CHUNK_BYTES};
use oc_io::Disk;
use oc_keep::{Files, Seat, Trial, trial};
use oc_model::{Header, Input, Sizes};
use std::alloc::Global;
use test_tools::{Fault, NodeDisks, RowDisk, RowFields, RowStep};

/// An upper bound on the inputs of a row.
const MOST_INPUTS: u32 = 100;

/// Appends the words of a row: the number of inputs taken, the reason why the trial ended, and then
/// the content of the disks after a crash.
pub fn put_words<D: RowDisk>(alloc: Global, given: &str, said: &mut String) -> Result<(), Fault> {
    let given = Given::of(given);
    let me = given.id()?;
    let files = given.files::<D>(alloc)?;
    let (files, trial) = tried(alloc, me, given.steps, files)?;
    put_trial(&trial, said)?;
    show(alloc, given.shown, me, files, said)
}

fn put_trial(trial: &Trial, said: &mut String) -> Result<(), Fault> {
    Ok(write!(said, "{} {:?} ", trial.done, trial.end)?)
}

/// The files after a trial of the inputs of these steps, and its end.
fn tried<D: Disk + Drop>(
    alloc: Global,
    me: NodeId,
    steps: RowFields<'_>,
    files: NodeDisks<D>,
) -> Result<(NodeDisks<D>, Trial), Fault> {
    if me.0 < 1 || me.0 > NODES {
        return Err(Fault::Field);
    }
    let inputs = inputs_in(alloc, steps, me)?;
    let seat = Seat {
        id: me,
        header: Header {
            sizes: Sizes {
                nodes: NODES,
                chain: 1,
                chunk: USUAL_CHUNK_BYTES,
            },
            areas: vec![in alloc; 0, 0, 0]?,
        },
    };
    let NodeDisks {
        control,
        alternate,
        content,
    } = files;
    let files = Files {
        control,
        alternate,
        content,
    };
    let (files, trial) = trial(alloc, files, seat, inputs);
    Ok((handed_back(files), trial))
}

/// The inputs of steps.
#[tactic(auto, using(crate::proofs::Lists::inputs_push))]
fn inputs_in(alloc: Global, mut steps: RowFields<'_>, me: NodeId) -> Result<Vec<Input>, Fault>
    ensures { IfOk result (λ inputs. AllByRecursion (IsInput 3 me) inputs.items) }
{
    let mut inputs = Vec::new(alloc);
    for _ in 0..MOST_INPUTS {
        if steps.is_empty() {
            break;
        }
        let input = input_in(alloc, RowStep::of(steps.text()), me)?;
        inputs.push(input)?;
    }
    Ok(inputs)
}
