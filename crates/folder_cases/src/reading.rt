//! An index that is fed from bytes in memory.

ghost use Rattle.std.specs.Prelude.{◌≡◌, ◌<◌, IfSome, length};
ghost use Rattle.oc_folder.specs.declared.limits.TheConstants.{BLOCK_BYTES};

use oc_base::MAX_GROUP_BYTES;
use oc_folder::{BLOCK_BYTES, Index};
use std::alloc::Global;
use test_tools::Fault;

/// The block that begins at a place, where it has come whole.
fn block_at(bytes: &[u8], at: u64) -> Option<&[u8]>
    ensures { IfSome result (λ block. length block.now ≡ BLOCK_BYTES) }
{
    let rest = bytes.get(at as usize..)?;
    rest.get(..BLOCK_BYTES)
}

/// Feeds an index the block that it wants. Returns whether one is wanted and has come whole.
pub fn feed(alloc: Global, index: &mut Index, bytes: &[u8]) -> Result<bool, Fault> {
    let Some(at) = index.wanted() else {
        return Ok(false);
    };
    if at > MAX_GROUP_BYTES {
        return Ok(false);
    }
    let Some(block) = block_at(bytes, at) else {
        return Ok(false);
    };
    index.feed(alloc, block)?;
    Ok(true)
}

/// The bytes of a block that has not come whole, from the place that an index wants on.
pub fn part_of_block<'a>(index: &Index, bytes: &'a [u8]) -> &'a [u8]
    ensures { length result.now < BLOCK_BYTES }
{
    let Some(at) = index.wanted() else {
        return &[];
    };
    match bytes.get(at as usize..) {
        Some(rest) if rest.len() < BLOCK_BYTES => rest,
        _ => &[],
    }
}
