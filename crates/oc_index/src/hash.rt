//! A hash of bytes.

ghost use Rattle.std.specs.Prelude.{◌≡◌};
ghost use Rattle.oc_index.specs.Index.{hash};

/// The factor of the hash, that of Knuth's generator MMIX.
const FACTOR: u64 = 6_364_136_223_846_793_005;

/// A polynomial hash of 64 bits: the bytes are the digits of a number to the base [`FACTOR`], modulo 2^64.
pub(crate) fn hash_of(bytes: &[u8]) -> u64
    ensures { result ≡ hash bytes.now }
{
    let mut hash: u64 = 0;
    for place in 0..bytes.len() {
        hash = hash
            .wrapping_mul(FACTOR)
            .wrapping_add(u64::from(bytes[place]));
    }
    hash
}
