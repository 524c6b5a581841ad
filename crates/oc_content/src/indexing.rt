//! Loading: the index of the frames of a journal.

ghost use Rattle.std.specs.Prelude.{◌≡◌, ℕ, IsTrue, IfOk, IsErrOf, OnOk};
ghost use Rattle.oc_journal.specs.Promises.{OnlyReads, NoneFailed, ClosesByRead};
ghost use Rattle.oc_content.specs.ContentFile.{IsFirstBad};
ghost use Rattle.oc_content.specs.ContentView.{IsIndexed};

use crate::index::Index;
use oc_io::Disk;
use oc_journal::{FileError, Journal};
use std::alloc::Global;

/// Reads each frame once, in order, up to the first bad one, and indexes it.
pub fn index_frames<D: Disk>(alloc: Global, journal: &mut Journal<D>) -> Result<Index, FileError>
    ensures indexed { IfOk result (λ index. IsIndexed D.view journal.new index) }
    ensures bad { (i : ℕ) → IsErrOf result (FileError.BadFrame i)
        → IsTrue (D.view journal.old.disk).honest → IsFirstBad journal.old.frames i }
    ensures disk { IsErrOf result FileError.Disk → ClosesByRead D.view journal.old journal.new }
    ensures none_failed { OnOk result (NoneFailed D.view journal.old journal.new) }
    ensures journal { IsErrOf result FileError.NotJournal → ⊥ }
    ensures same { OnlyReads D.view journal.old journal.new }
{
    let mut index = Index::new(alloc);
    let mut body = Vec::new(alloc);
    for number in 0..journal.count() {
        journal.frame(number, &mut body)?;
        if !index.take(alloc, number, &body)? {
            return Err(FileError::BadFrame(number));
        }
    }
    Ok(index)
}
