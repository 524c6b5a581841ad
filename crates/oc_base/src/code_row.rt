ghost use Rattle.std.specs.Prelude.{◌≡◌, ◌↔◌, ◌==◌, not, IsTrue};
ghost use Rattle.std.specs.List.{list_all};
ghost use Rattle.oc_base.specs.Codes.{row_of, AreDistinct, are_distinct};

/// A kind in a binary format: its code, and the least length of its fields in bytes.
#[derive(Clone, Copy, Debug, PartialEq, Eq)]
pub struct CodeRow {
    pub code: u8,
    /// The least length of the fields, in bytes.
    pub least: u32,
}

/// Finds the index of the first row with this code.
pub fn row_of<const N: usize>(rows: &[CodeRow; N], code: u8) -> Option<usize>
    ensures { result ≡ row_of code rows.now }
{
    rows.iter().position(|row| row.code == code)
}

/// Whether no two rows have the same code.
pub fn distinct<const N: usize>(rows: &[CodeRow; N]) -> bool
    ensures exact { IsTrue result ↔ AreDistinct rows.now }
    ensures computed { result ≡ are_distinct rows.now }
{
    are_different(rows)
}

/// Whether no row has the code of an earlier one.
fn are_different(rows: &[CodeRow]) -> bool
    ensures { result ≡ are_distinct rows.now }
{
    match rows {
        [] => true,
        [row, rest @ ..] => have_not(rest, row.code) && are_different(rest),
    }
}

/// Whether no row has this code.
fn have_not(rows: &[CodeRow], code: u8) -> bool
    ensures { result ≡ list_all (λ row. not (row.code == code)) rows.now }
{
    rows.iter().all(|row| row.code != code)
}
