ghost use Rattle.std.specs.Prelude.{◌≡◌, ℕ, ◌^◌, ◌<◌, ◌≤◌, List, [], ◌∷◌, ◌++◌, Ok, None, get_or};
ghost use Rattle.oc_model.specs.declared.record.Record.{Record};
ghost use Rattle.oc_record.specs.Spelling.{records_bytes};
ghost use Rattle.oc_model.specs.Lawful.{AreRecords};
ghost use Rattle.oc_record.specs.Reading.{decoded};
ghost use Rattle.oc_store.specs.ControlFiles.{records_in, records_of, recovered, first_bad, generation_in, begun_generation, IsGood};

use oc_record::spellings_are_read;

/// A frame of lawful records is read back as these records, and one more frame adds its records.
pub fn frames_add_their_records()
    ensures read { (nodes : ℕ) (list : List Record) → nodes < 2 ^ 32 → AreRecords nodes list
        → records_in nodes (records_bytes list) ≡ list }
    ensures good { (nodes : ℕ) (list : List Record) → nodes < 2 ^ 32 → AreRecords nodes list
        → first_bad nodes (records_bytes list ∷ []) ≡ None }
    ensures one { (nodes : ℕ) (body : List ℕ) → records_of nodes (body ∷ []) ≡ records_in nodes body }
    ensures more { (nodes : ℕ) (frames : List (List ℕ)) (body : List ℕ)
        → records_of nodes (frames ++ body ∷ []) ≡ records_of nodes frames ++ records_in nodes body }
{
    spellings_are_read();
}

/// Control files of a network are those of one of more nodes, and recover the same records.
pub fn files_are_those_of_more_nodes()
    ensures good { (few many : ℕ) (file : List ℕ) → few ≤ many → IsGood few file → IsGood many file }
    ensures records { (few many : ℕ) (file alternate : List ℕ) → few ≤ many → IsGood few file → IsGood few alternate
        → recovered many file alternate ≡ recovered few file alternate }
{}

/// The generation of a body is that of the snapshot that begins its records, and 0 if none does.
pub fn generations_are_of_snapshots()
    ensures { (nodes : ℕ) (body : List ℕ) (list : List Record) → ((i : ℕ) → get_or body i 0 < 256)
        → decoded nodes body ≡ Ok list → generation_in body ≡ begun_generation list }
{}
