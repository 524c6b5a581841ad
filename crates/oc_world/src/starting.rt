//! The start of a node that is down: its state is read from its files.

ghost use Rattle.std.specs.Prelude.{◌≡◌, IfOk};
ghost use Rattle.oc_base.specs.Lawful.{IsNode};
ghost use Rattle.oc_keep.specs.Errors.{IsOutOfMemory};
ghost use Rattle.oc_keep.specs.Files.{AreHonest, AreReliable, disks_in};
ghost use Rattle.oc_keep.specs.KeptView.{node_of};
ghost use Rattle.oc_keep.specs.Promises.{HoldFiles};
ghost use Rattle.oc_keep.specs.Trials.{first_node};
ghost use Rattle.oc_model.specs.Lawful.{IsHeader};
ghost use Rattle.oc_world.specs.ProcessState.{IsRunning};

use oc_base::Memory;
use oc_io::Disk;
use oc_keep::{FileError, Files, KeepLoad, Kept, Seat};
use std::alloc::Global;

/// The node of this seat that these files recover. Files of a node on disks that do not fail are refused only where memory
/// runs out.
pub(crate) fn load<D: Disk + Drop>(
    alloc: Global,
    files: Files<D>,
    seat: &Seat,
) -> Result<Kept<D>, Memory>
    requires header { IsHeader seat.now.header }
    requires id { IsNode seat.now.header.nodes seat.now.id }
    requires honest { AreHonest D.view (disks_in files) }
    requires reliable { AreReliable D.view (disks_in files) }
    requires files { HoldFiles D.view seat.now.header.nodes (disks_in files) }
    ensures running { IfOk result (λ kept. IsRunning D.view seat.now.header seat.now.id kept) }
    ensures node { IfOk result (λ kept. node_of kept ≡ first_node D.view seat.now.header seat.now.id (disks_in files)) }
{
    let seat = Seat::new(alloc, seat.id, &seat.header)?;
    match Kept::load(alloc, files, seat) {
        Ok(kept) => Ok(kept),
        Err((_, error)) => Err(wanting(error)),
    }
}

/// The one refusal of files of a node on disks that do not fail.
fn wanting(error: KeepLoad) -> Memory
    requires { IsOutOfMemory error }
{
    match error.cause() {
        FileError::Memory => Memory,
        FileError::Disk | FileError::NotJournal | FileError::BadFrame(_) => unreachable!(),
    }
}
