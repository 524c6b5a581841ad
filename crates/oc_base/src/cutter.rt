ghost use Rattle.std.specs.Prelude.{◌≡◌, ◌<◌, ◌==◌, [], ◌∷◌, length, IfNone, IfSome, position};
ghost use Rattle.std.specs.List.{after_first, before_first, slice_split};

/// Cuts bytes at the first separator: the bytes before it and the bytes after it; `None` where there is no
/// separator. Lines, words and the segments of a name are all found by this.
pub fn cut(bytes: &[u8], separator: u8) -> (&[u8], Option<&[u8]>)
    ensures last { IfNone result.1
        (slice_split (λ b. b == separator) bytes.now ≡ result.0.now ∷ []) }
    ensures first { IfSome result.1 (λ rest. slice_split (λ b. b == separator) bytes.now
        ≡ result.0.now ∷ slice_split (λ b. b == separator) rest.now) }
    ensures shorter { IfSome result.1 (λ rest. length rest.now < length bytes.now) }
{
    match place_of(bytes, separator) {
        None => (bytes, None),
        Some(at) => (&bytes[..at], Some(&bytes[at + 1..])),
    }
}

/// Finds the index of the first byte of this value.
pub fn place_of(bytes: &[u8], byte: u8) -> Option<usize>
    ensures { result ≡ position (λ b. b == byte) bytes.now }
{
    bytes.iter().position(|b| *b == byte)
}

/// Cuts bytes at the first byte of this value; without one the second part is empty.
pub fn cut_at_first(bytes: &[u8], byte: u8) -> (&[u8], &[u8])
    ensures before { result.0.now ≡ before_first (λ b. b == byte) bytes.now }
    ensures after { result.1.now ≡ after_first (λ b. b == byte) bytes.now }
{
    match place_of(bytes, byte) {
        Some(at) => (&bytes[..at], &bytes[at + 1..]),
        None => (bytes, &[]),
    }
}
