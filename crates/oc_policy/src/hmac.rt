ghost use Rattle.std.specs.Prelude.{◌≡◌, ◌++◌, ◌≤◌, drop, length, map, bit_xor};
ghost use Rattle.sha2.specs.Sha256.{sha256};
ghost use Rattle.oc_policy.specs.Hmac.{hmac, key_block};
ghost use Rattle.oc_policy.specs.declared.hmac.TheConstants.{BLOCK_BYTES};

use sha2::{Digest, Sha256};

/// The number of bytes that SHA-256 takes at a time.
pub(crate) const BLOCK_BYTES: usize = 64;

/// `ipad` of RFC 2104.
const INNER: u8 = 0x36;

/// `opad` of RFC 2104.
const OUTER: u8 = 0x5C;

/// HMAC-SHA-256 of a text under a key of any length. It takes no memory, and the text is read where it is.
#[tactic(auto, unfolding(crate::specs::Hmac::hmac))]
pub fn hmac_sha256(key: &[u8], text: &[u8]) -> [u8; 32]
    ensures { result ≡ hmac key.now text.now }
{
    let block = padded(key);
    let inner = digest_of_both(&masked(&block, INNER), text);
    digest_of_both(&masked(&block, OUTER), &inner)
}

/// The key as one block: a long one is hashed first, and zeros fill it up.
fn padded(key: &[u8]) -> [u8; BLOCK_BYTES]
    ensures { result ≡ key_block key.now }
{
    let mut block = [0; BLOCK_BYTES];
    if key.len() <= BLOCK_BYTES {
        put_in_front(&mut block, key);
    } else {
        put_in_front(&mut block, &Sha256::digest(key));
    }
    block
}

/// Copies some bytes to the front.
fn put_in_front(block: &mut [u8], bytes: &[u8])
    requires { length bytes.now ≤ length block.old }
    ensures { block.new ≡ bytes.now ++ drop (length bytes.now) block.old }
{
    block[..bytes.len()].copy_from_slice(bytes);
}

/// Each byte of a block, XOR the mask.
fn masked(block: &[u8; BLOCK_BYTES], mask: u8) -> [u8; BLOCK_BYTES]
    ensures { result ≡ map (λ byte. bit_xor byte mask) block.now }
{
    let mut out = *block;
    for byte in out.iter_mut() {
        *byte ^= mask;
    }
    out
}

/// The digest of two pieces as one message.
fn digest_of_both(first: &[u8], second: &[u8]) -> [u8; 32]
    ensures { result ≡ sha256 (first.now ++ second.now) }
{
    let mut hasher = Sha256::new();
    hasher.update(first);
    hasher.update(second);
    hasher.finalize()
}
