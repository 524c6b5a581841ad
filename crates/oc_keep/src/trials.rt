ghost use Rattle.std.specs.Prelude.{◌≡◌, ◌≢◌, ◌+◌, ◌<◌, ◌≤◌, false, length, take, drop, Err, IfErr, IfOk, IsTrue, Ok};
ghost use Rattle.std.specs.List.{AllByRecursion};
ghost use Rattle.oc_base.specs.Lawful.{IsNode};
ghost use Rattle.oc_keep.specs.declared.errors.KeepError.TheVariants.{Full};
ghost use Rattle.oc_keep.specs.Files.{AllGoOn, AreHonest, AreReliable, disks_in};
ghost use Rattle.oc_keep.specs.KeptView.{IsFullOn, IsHonest, NodeSurvives, disks_of, header_of, node_of};
ghost use Rattle.oc_keep.specs.Promises.{HoldFiles};
ghost use Rattle.oc_keep.specs.Trials.{BeginsWith, EndsFull, EndsSurely, HasCause, HasRunCause, IsCounted, LeavesAfter, RunLeaves, after_inputs, first_node};
ghost use Rattle.oc_model.specs.Lawful.{IsHeader, IsInput};

use crate::ended::{Trial, TrialEnd};
use crate::errors::KeepError;
use crate::files::Files;
use crate::kept::Kept;
use crate::seat::Seat;
use oc_io::Disk;
use oc_model::Input;
use std::alloc::Global;

/// Loads a node, takes inputs in order up to the first that is refused, and hands the disks back.
pub fn trial<D: Disk>(
    alloc: Global,
    files: Files<D>,
    seat: Seat,
    inputs: Vec<Input>,
) -> (Files<D>, Trial)
    requires header { IsHeader seat.header }
    requires id { IsNode seat.header.nodes seat.id }
    requires inputs { AllByRecursion (IsInput seat.header.nodes seat.id) inputs.items }

    // Every crash leaves the node after the inputs that were taken, or after one more where a disk failed; where
    // the node was not loaded, the files that some crash at the start would have left.
    ensures leaves { AreHonest D.view (disks_in files)
        → LeavesAfter D.view seat.header seat.id (disks_in files) inputs.items (disks_in result.0) result.1 }

    // The number of inputs that were taken, and the end of the trial.
    ensures counted { IsCounted inputs.items result.1 }
    ensures cause { HasCause D.view seat.header.nodes (disks_in files) (disks_in result.0) result.1.end }
    ensures goes_on { AllGoOn D.view (disks_in files) (disks_in result.0) }

    // The input that was refused since its file is full: with the input the file would pass its limit.
    ensures full { AreHonest D.view (disks_in files) → result.1.end ≡ TrialEnd.Take Full
        → BeginsWith (IsFullOn D.view (disks_in result.0)
        (after_inputs (first_node D.view seat.header seat.id (disks_in files)) (take result.1.done inputs.items)))
        (drop result.1.done inputs.items) }

    // The files of a node on reliable disks take all inputs, if there is the memory.
    ensures works { AreReliable D.view (disks_in files) → HoldFiles D.view seat.header.nodes (disks_in files) → EndsSurely result.1.end }
{
    let mut kept = match Kept::load(alloc, files, seat) {
        Ok(kept) => kept,
        Err((files, error)) => {
            let trial = Trial {
                done: 0,
                end: TrialEnd::Load(error),
            };
            return (files, trial);
        }
    };
    let trial = run(&mut kept, inputs);
    let (control, alternate, content) = kept.into_disks();
    let files = Files {
        control,
        alternate,
        content,
    };
    (files, trial)
}

/// Takes inputs in order, up to the first that is refused.
fn run<D: Disk>(kept: &mut Kept<D>, mut inputs: Vec<Input>) -> Trial
    requires open { kept.old.closed ≡ false }
    requires inputs { AllByRecursion (IsInput kept.old.node.control.nodes kept.old.node.control.me) inputs.items }
    requires survives { IsHonest D.view kept.old → NodeSurvives D.view kept.old (node_of kept.old) }
    ensures leaves { IsHonest D.view kept.old → RunLeaves D.view kept.old inputs.items kept.new result }
    ensures counted { IsCounted inputs.items result }
    ensures cause { HasRunCause D.view (disks_of kept.old) (disks_of kept.new) result.end }
    ensures full { IsHonest D.view kept.old → result.end ≡ TrialEnd.Take Full
        → EndsFull kept.old inputs.items kept.new result.done }
    ensures goes_on { AllGoOn D.view (disks_of kept.old) (disks_of kept.new) }
    ensures works { AreReliable D.view (disks_of kept.old) → EndsSurely result.end }
{
    // The first input is at the end of the list, and is taken off there.
    inputs.reverse();
    let mut done = 0;
    while let Some(input) = inputs.pop() {
        match kept.take(input) {
            Ok(outcome) => {
                drop(outcome);
                done += 1;
            }
            Err(error) => {
                return Trial {
                    done,
                    end: TrialEnd::Take(error),
                };
            }
        }
    }
    Trial {
        done,
        end: TrialEnd::All,
    }
}
