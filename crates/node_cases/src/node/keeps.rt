//! A node on its three files: its answers, and the content of its files.

use crate::node::files::{load, show};
use crate::node::given::Given;
use crate::node::inputs::input_in;
use oc_base::{GroupName, NodeId};
use oc_io::Disk;
use oc_keep::{Kept, Outcome};
use std::alloc::Global;
use test_tools::{Fault, NodeDisks, RowDisk, RowFields, RowStep, group_in, put_hex};

/// An upper bound on the steps of a row.
const MOST_STEPS: u32 = 100;

/// Appends the words of a row: the result of each step, or the reason why the node was not loaded,
/// and then the content of the disks after a crash.
pub fn put_words<D: RowDisk>(alloc: Global, given: &str, said: &mut String) -> Result<(), Fault> {
    let given = Given::of(given);
    let me = given.id()?;
    match load(alloc, me, given.files::<D>(alloc)?)? {
        Ok(kept) => play_loaded(alloc, &given, me, kept, said),
        Err((files, error)) => {
            write!(said, "{error:?} ")?;
            show(alloc, given.shown, me, files, said)
        }
    }
}

/// Performs the steps of a row, and appends the chosen view.
fn play_loaded<D: RowDisk>(
    alloc: Global,
    given: &Given<'_>,
    me: NodeId,
    mut kept: Kept<D>,
    said: &mut String,
) -> Result<(), Fault> {
    let acted = act_all(alloc, &mut kept, given.steps, said);
    let (control, alternate, content) = kept.into_disks();
    let files = NodeDisks {
        control,
        alternate,
        content,
    };
    match acted {
        Ok(()) => show(alloc, given.shown, me, files, said),
        Err(fault) => {
            drop(files);
            Err(fault)
        }
    }
}

/// Performs the steps, with a space after the result of each.
fn act_all<D: Disk>(
    alloc: Global,
    kept: &mut Kept<D>,
    mut steps: RowFields<'_>,
    said: &mut String,
) -> Result<(), Fault> {
    for _ in 0..MOST_STEPS {
        if steps.is_empty() {
            break;
        }
        act(alloc, kept, RowStep::of(steps.text()), said)?;
        said.push_str(" ")?;
    }
    Ok(())
}

/// Performs a step, and appends its result.
fn act<D: Disk>(
    alloc: Global,
    kept: &mut Kept<D>,
    step: RowStep<'_>,
    said: &mut String,
) -> Result<(), Fault> {
    match step.word {
        "tidy" => tidy(kept, said),
        "measures" => measure(alloc, kept, step.fields, said),
        "read" => read(alloc, kept, step.fields, said),
        "due" => put_due(kept, said),
        "closed" => put_closed(kept, said),
        _ => take(alloc, kept, step, said),
    }
}

/// Puts whether the files are due, and their generation.
fn put_due<D: Disk>(kept: &Kept<D>, said: &mut String) -> Result<(), Fault> {
    let due = kept.is_due();
    let generation = kept.generation();
    Ok(write!(said, "{due}/{generation}")?)
}

/// Puts whether the node is closed.
fn put_closed<D: Disk>(kept: &Kept<D>, said: &mut String) -> Result<(), Fault> {
    let closed = kept.is_closed();
    Ok(write!(said, "{closed}")?)
}

/// Takes an input, and appends its answer and the number of messages sent, or the error.
fn take<D: Disk>(
    alloc: Global,
    kept: &mut Kept<D>,
    step: RowStep<'_>,
    said: &mut String,
) -> Result<(), Fault> {
    if kept.node().nodes() != 3 {
        return Err(Fault::Unready);
    }
    let input = input_in(alloc, step, kept.node().id())?;
    match kept.take(input) {
        Ok(outcome) => {
            let put = put_outcome(&outcome, said);
            drop(outcome);
            put
        }
        Err(error) => Ok(write!(said, "{error:?}")?),
    }
}

fn put_outcome(outcome: &Outcome, said: &mut String) -> Result<(), Fault> {
    Ok(write!(said, "{:?}/{}", outcome.answer, outcome.sends.len())?)
}

/// Turns the files over, if they are due, and appends whether they were, or the error.
fn tidy<D: Disk>(kept: &mut Kept<D>, said: &mut String) -> Result<(), Fault> {
    let turned = kept.tidy();
    Ok(write!(said, "{turned:?}")?)
}

/// Takes the given number of measurements of node 1, with hops 1 and the rates 1, 2, 1, 2 and so on.
fn measure<D: Disk>(
    alloc: Global,
    kept: &mut Kept<D>,
    mut fields: RowFields<'_>,
    said: &mut String,
) -> Result<(), Fault> {
    let count = fields.small()?;
    let mut words = String::new(alloc);
    for number in 0..count {
        let measure = if number % 2 == 0 {
            "measure:1,1,1"
        } else {
            "measure:1,2,1"
        };
        take(alloc, kept, RowStep::of(measure), &mut words)?;
    }
    Ok(write!(said, "{count}")?)
}

/// Reads at most the given number of bytes of a group, from an offset on, and appends them or the
/// error.
fn read<D: Disk>(
    alloc: Global,
    kept: &mut Kept<D>,
    mut fields: RowFields<'_>,
    said: &mut String,
) -> Result<(), Fault> {
    let group = group_in(fields.text())?;
    let start = fields.number()?;
    let mut buf = vec![in alloc; 0; fields.byte()? as usize]?;
    read_into(kept, &group, start, &mut buf, said)
}

fn read_into<D: Disk>(
    kept: &mut Kept<D>,
    group: &GroupName,
    start: u64,
    buf: &mut [u8],
    said: &mut String,
) -> Result<(), Fault> {
    match kept.read(group, start, buf) {
        Ok(count) => put_hex(said, &buf[..count]),
        Err(error) => Ok(write!(said, "{error:?}")?),
    }
}
