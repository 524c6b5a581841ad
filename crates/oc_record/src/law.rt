ghost use Rattle.std.specs.List.{AllByRecursion};
ghost use Rattle.std.specs.Prelude.{◌≡◌, ℕ, ◌<◌, ◌≤◌, ◌^◌, Ok, List, [], ◌∷◌};
ghost use Rattle.oc_base.specs.Codes.{AreDistinct};
ghost use Rattle.oc_model.specs.declared.record.Record.{Record};
ghost use Rattle.oc_record.specs.Examples.{first_ask, first_ask_record, old_entry, old_entry_record};
ghost use Rattle.oc_record.specs.Reading.{decoded};
ghost use Rattle.oc_record.specs.Rows.{HasLeast};
ghost use Rattle.oc_record.specs.Spelling.{HaveSpellings, records_bytes};
ghost use Rattle.oc_model.specs.Lawful.{AreRecords};
ghost use Rattle.oc_record.specs.declared.fault.RecordFault.TheVariants.{Short as RecordShort, Value as RecordValue, Kind as RecordKind};

use crate::codes::CODES;
use oc_base::distinct;

/// No two kinds have the same code, as a computation checks.
pub fn codes_are_distinct()
    ensures { AreDistinct CODES }
{
    let _answer = distinct(&CODES);
}

/// Each row has the least length of the fields of its kind, as a computation checks.
pub fn least_lengths_are_exact()
    ensures { AllByRecursion HasLeast CODES }
{}

/// No two lists of lawful records have the same spelling.
pub fn no_two_lists_have_one_spelling()
    ensures { (nodes : ℕ) (first second : List Record) → nodes < 2 ^ 32 → AreRecords nodes first → AreRecords nodes second
        → records_bytes first ≡ records_bytes second → first ≡ second }
{}

/// Lawful records have a spelling, from which they are read back.
pub fn spellings_are_read()
    ensures spelled { (nodes : ℕ) (list : List Record) → AreRecords nodes list → HaveSpellings list }
    ensures read { (nodes : ℕ) (list : List Record) → nodes < 2 ^ 32 → AreRecords nodes list
        → decoded nodes (records_bytes list) ≡ Ok list }
{}

/// Records that are read in a network are read in one of more nodes, too.
pub fn records_are_read_among_more_nodes()
    ensures { (few many : ℕ) (bytes : List ℕ) (list : List Record) → few ≤ many → decoded few bytes ≡ Ok list → decoded many bytes ≡ Ok list }
{}

/// Worked examples of reading give the expected records, as a computation checks.
pub fn examples_are_read()
    ensures ask { decoded 1 first_ask ≡ Ok (first_ask_record ∷ []) }
    ensures old_entry { decoded 2 old_entry ≡ Ok (old_entry_record ∷ []) }
    ensures strange { decoded 1 (99 ∷ []) ≡ Err (RecordKind 99) }
    ensures cut { decoded 1 (5 ∷ []) ≡ Err RecordShort }
    ensures beyond { decoded 1 old_entry ≡ Err RecordValue }
    ensures none { decoded 1 [] ≡ Ok [] }
{}
