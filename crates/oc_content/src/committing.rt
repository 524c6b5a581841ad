//! Appending a prepared piece.

ghost use Rattle.std.specs.Prelude.{◌≡◌, ◌≢◌, ◌↔◌, ◌+◌, ◌<◌, false, length, IsTrue, IsOk, IsErrOf, OnErr, IfOk, IfErr};
ghost use Rattle.oc_io.specs.DiskView.{CannotFail};
ghost use Rattle.oc_journal.specs.Promises.{AppendsSafely, ClosesByAppend, IsFullFor};
ghost use Rattle.oc_content.specs.ContentView.{IsIndexed, CanAppend, content_with};
ghost use Rattle.oc_content.specs.Promises.{Commits};

use crate::index::Index;
use crate::piece::Piece;
use oc_io::Disk;
use oc_journal::{AppendError, Journal};

/// Appends a piece to the journal, and on success adds it to the index.
pub fn append<D: Disk>(
    journal: &mut Journal<D>,
    index: &mut Index,
    piece: Piece,
) -> Result<u64, AppendError>
    requires { CanAppend D.view journal.old index.old piece }
    ensures indexed { IsIndexed D.view journal.new index.new }
    ensures commits { IfOk result (λ held.
        Commits D.view piece held (content_with journal.old index.old) (content_with journal.new index.new)) }
    ensures safely { AppendsSafely D.view piece.body journal.old journal.new }
    ensures closed { IsErrOf result AppendError.Closed ↔ IsTrue journal.old.closed }
    ensures full { IsErrOf result AppendError.Full
        ↔ ((journal.old.closed ≡ false) × IsFullFor (length piece.body) journal.old) }
    ensures unchanged { IfErr result (λ error. error ≢ AppendError.Disk → journal.new ≡ journal.old) }
    ensures disk { IsErrOf result AppendError.Disk
        → ClosesByAppend D.view piece.body journal.old journal.new }
    ensures works { journal.old.closed ≡ false
        → CannotFail (length piece.body + 6) 4 (D.view journal.old.disk) → IsOk result }
    ensures index_err { OnErr result (index.new ≡ index.old) }
{
    let number = journal.count();
    journal.append(piece.frame())?;
    Ok(index.put(piece, number))
}
