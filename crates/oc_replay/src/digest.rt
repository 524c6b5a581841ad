ghost use Rattle.std.specs.Prelude.{◌≡◌, ◌++◌, IfOk, OnOk};
ghost use Rattle.hex.specs.Hex.{encode_lower};
ghost use Rattle.sha2.specs.Sha256.{sha256};
ghost use Rattle.oc_replay.specs.Digests.{digest_text, has_line};
ghost use Rattle.oc_replay.specs.Digests as digests;

use crate::lines::held_text;
use oc_base::{Memory, Shelf, put, put_with_number};
use oc_node::Node;
use oc_record::encode;
use sha2::{Digest, Sha256};
use std::alloc::Global;

/// The number of hexadecimal digits of a digest.
pub const DIGEST_DIGITS: usize = 64;

/// The content of a node's files as bytes: the records of its snapshot, with the running number 1
/// whatever their number is, and after them a line for each of its groups, with length and seal.
#[tactic(auto, using(crate::proofs::Snapshots::snapshots_spell))]
pub fn files_text(alloc: Global, node: &Node, shelf: &[Shelf]) -> Result<Vec<u8>, Memory>
    ensures { IfOk result (λ text. text.items ≡ digests.files_text node.now.control.kept shelf.now) }
{
    // This call has a clause by which the node is lawful, so its records have a spelling.
    let _nodes = node.nodes();
    let list = node.snapshot(1)?;
    let mut text = encode(alloc, &list)?;
    let held = held_text(alloc, shelf)?;
    put(&mut text, &held)?;
    Ok(text)
}

/// Appends the digest of a node's files: 64 hexadecimal digits in lower case.
pub fn put_digest(
    alloc: Global,
    out: &mut Vec<u8>,
    node: &Node,
    shelf: &[Shelf],
) -> Result<(), Memory>
    ensures { OnOk result (out.new.items ≡ out.old.items ++ digest_text node.now.control.kept shelf.now) }
{
    let text = files_text(alloc, node, shelf)?;
    put(out, &digits_of(&text))
}

/// Appends the line `# ID has H` with the digest of a node's files.
pub fn put_has_line(
    alloc: Global,
    out: &mut Vec<u8>,
    node: &Node,
    shelf: &[Shelf],
) -> Result<(), Memory>
    ensures { OnOk result (out.new.items ≡ out.old.items ++ has_line node.now.control.me node.now.control.kept shelf.now) }
{
    put_with_number(out, b"# ", u64::from(node.id().0))?;
    put(out, b" has ")?;
    put_digest(alloc, out, node, shelf)?;
    put(out, b"\n")
}

/// The digits of the SHA-256 of a text.
fn digits_of(text: &[u8]) -> [u8; DIGEST_DIGITS]
    ensures { result ≡ encode_lower (sha256 text.now) }
{
    let mut digits = [0; DIGEST_DIGITS];
    // There is room for exactly these digits, so they are written.
    let _written = hex::encode_to_slice(&Sha256::digest(text), &mut digits);
    digits
}
