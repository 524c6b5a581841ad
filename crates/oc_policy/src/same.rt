ghost use Rattle.std.specs.Prelude.{◌≡◌, ◌↔◌, IsTrue};

/// Whether two texts are the same. All bytes of two texts of one length are looked at, so the time that it takes does
/// not tell where they differ.
pub fn are_same(first: &[u8], second: &[u8]) -> bool
    ensures { IsTrue result ↔ (first.now ≡ second.now) }
{
    if first.len() != second.len() {
        return false;
    }
    let mut differing = 0;
    'bytes: for at in 0..first.len() {
        differing |= first[at] ^ second[at];
    }
    differing == 0
}
