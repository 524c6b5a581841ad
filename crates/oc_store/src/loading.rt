ghost use Rattle.std.specs.Prelude.{◌≡◌, ℕ, ◌<◌, [], length, get_or, IsTrue, IsErr, IfOk, IfErr, OnOk};
ghost use Rattle.oc_journal.specs.JournalFile.{frames_of};
ghost use Rattle.oc_journal.specs.Promises.{IsLoaded, LoadsSafely, OnlyReads, NoneFailed, ClosesByRead};
ghost use Rattle.oc_model.specs.Lawful.{AreRecords};
ghost use Rattle.oc_record.specs.Reading.{decoded};
ghost use Rattle.oc_store.specs.ControlFiles.{records_of, first_bad, generation_of};
ghost use Rattle.oc_store.specs.Promises.{HasGood, RefusesFile};

use crate::generation::generation_of;
use oc_io::Disk;
use oc_journal::{FileError, Journal};
use oc_record::{Record, RecordFault, decode};
use std::alloc::Global;

/// A loaded control file: its journal and its content.
#[derive(Drop)]
pub struct ControlFile<D: Disk> {
    pub journal: Journal<D>,
    pub contents: Contents,
}

/// The content of a control file.
#[derive(Drop)]
pub struct Contents {
    /// All records, in order.
    pub list: Vec<Record>,
    /// The generation; none if there is no frame.
    pub generation: Option<u64>,
}

/// Loads the journal of one control file, and reads all its records in order. After a refusal the disk
/// comes back.
pub fn load_file<D: Disk>(
    alloc: Global,
    disk: D,
    nodes: u32,
) -> Result<ControlFile<D>, (D, FileError)>
    ensures loaded { IfOk result (λ file. IsLoaded D.view disk file.journal) }
    ensures lawful { IfOk result (λ file. AreRecords nodes file.contents.list.items) }
    ensures list { IfOk result (λ file. IsTrue (D.view disk).honest
        → file.contents.list.items ≡ records_of nodes (frames_of (D.view disk).seen)) }
    ensures generation { IfOk result (λ file. IsTrue (D.view disk).honest
        → file.contents.generation ≡ generation_of (frames_of (D.view disk).seen)) }
    ensures good { OnOk result (HasGood nodes (D.view disk)) }
    ensures safely { IfOk result (λ file. LoadsSafely (D.view disk) (D.view file.journal.disk)) }
    ensures safely_err { IfErr result (λ refused. LoadsSafely (D.view disk) (D.view refused.0)) }
    ensures refuses { IfErr result
        (λ refused. RefusesFile nodes (D.view disk) (D.view refused.0) refused.1) }
{
    let mut journal = match Journal::load(alloc, disk) {
        Ok(journal) => journal,
        Err((disk, error)) => return Err((disk, FileError::from(error))),
    };
    match read(alloc, nodes, &mut journal) {
        Ok(contents) => Ok(ControlFile { journal, contents }),
        Err(error) => Err((journal.into_disk(), error)),
    }
}

/// Reads the records and the generation.
fn read<D: Disk>(alloc: Global, nodes: u32, journal: &mut Journal<D>) -> Result<Contents, FileError>
    ensures lawful { IfOk result (λ contents. AreRecords nodes contents.list.items) }
    ensures list { IfOk result (λ contents. IsTrue (D.view journal.old.disk).honest
        → contents.list.items ≡ records_of nodes journal.old.frames) }
    ensures generation { IfOk result (λ contents. IsTrue (D.view journal.old.disk).honest
        → contents.generation ≡ generation_of journal.old.frames) }
    ensures good { OnOk result (IsTrue (D.view journal.old.disk).honest
        → first_bad nodes journal.old.frames ≡ None) }
    ensures bad_frame { IfErr result (λ error. (number : ℕ) → error ≡ FileError.BadFrame number → IsTrue (D.view journal.old.disk).honest
        → first_bad nodes journal.old.frames ≡ Some number) }
    ensures journal { IfErr result (λ error. error ≡ FileError.NotJournal → ⊥) }
    ensures disk { IfErr result (λ error. error ≡ FileError.Disk → ClosesByRead D.view journal.old journal.new) }
    ensures none_failed { OnOk result (NoneFailed D.view journal.old journal.new) }
    ensures same { OnlyReads D.view journal.old journal.new }
{
    let generation = generation_of(alloc, journal)?;
    let list = read_all(alloc, nodes, journal)?;
    Ok(Contents { list, generation })
}

/// The records of all frames, in order.
fn read_all<D: Disk>(
    alloc: Global,
    nodes: u32,
    journal: &mut Journal<D>,
) -> Result<Vec<Record>, FileError>
    ensures lawful { IfOk result (λ list. AreRecords nodes list.items) }
    ensures list { IfOk result (λ list. IsTrue (D.view journal.old.disk).honest
        → list.items ≡ records_of nodes journal.old.frames) }
    ensures good { OnOk result (IsTrue (D.view journal.old.disk).honest
        → first_bad nodes journal.old.frames ≡ None) }
    ensures bad_frame { IfErr result (λ error. (number : ℕ) → error ≡ FileError.BadFrame number → IsTrue (D.view journal.old.disk).honest
        → first_bad nodes journal.old.frames ≡ Some number) }
    ensures journal { IfErr result (λ error. error ≡ FileError.NotJournal → ⊥) }
    ensures disk { IfErr result (λ error. error ≡ FileError.Disk → ClosesByRead D.view journal.old journal.new) }
    ensures none_failed { OnOk result (NoneFailed D.view journal.old journal.new) }
    ensures same { OnlyReads D.view journal.old journal.new }
{
    let mut list = Vec::new(alloc);
    for number in 0..journal.count() {
        let mut more = read_frame(alloc, nodes, journal, number)?;
        list.append(&mut more)?;
    }
    Ok(list)
}

/// The records of one frame.
fn read_frame<D: Disk>(
    alloc: Global,
    nodes: u32,
    journal: &mut Journal<D>,
    number: u64,
) -> Result<Vec<Record>, FileError>
    requires { number < length journal.old.frames }
    ensures lawful { IfOk result (λ list. AreRecords nodes list.items) }
    ensures list { IfOk result (λ list. IsTrue (D.view journal.old.disk).honest
        → decoded nodes (get_or journal.old.frames number []) ≡ Ok list.items) }
    ensures bad_frame { IfErr result (λ error. (bad : ℕ) → error ≡ FileError.BadFrame bad
        → (bad ≡ number) × (IsTrue (D.view journal.old.disk).honest
        → IsErr (decoded nodes (get_or journal.old.frames number [])))) }
    ensures journal { IfErr result (λ error. error ≡ FileError.NotJournal → ⊥) }
    ensures disk { IfErr result (λ error. error ≡ FileError.Disk → ClosesByRead D.view journal.old journal.new) }
    ensures none_failed { OnOk result (NoneFailed D.view journal.old journal.new) }
    ensures same { OnlyReads D.view journal.old journal.new }
{
    let mut body = Vec::new(alloc);
    journal.frame(number, &mut body)?;
    match decode(alloc, &body, nodes) {
        Ok(list) => Ok(list),
        Err(RecordFault::Memory) => Err(FileError::Memory),
        Err(_) => Err(FileError::BadFrame(number)),
    }
}
