//! The node on its files, and its groups.

ghost use Rattle.std.specs.Prelude.{◌≡◌, IfOk};
ghost use Rattle.oc_base.specs.Groups.{shelf};
ghost use Rattle.oc_keep.specs.KeptView.{IsHonest, node_of};
ghost use Rattle.oc_laws_step.specs.LawfulNode.{IsLawfulControl};
ghost use Rattle.oc_replay.specs.Digests.{digest_text};

use oc_base::{Memory, Shelf};
use oc_io::Disk;
use oc_keep::{Kept, Node};
use oc_replay::put_digest;
use std::alloc::Global;

/// The node on these files, which is lawful.
pub(crate) fn lawful_node<D: Disk>(kept: &Kept<D>) -> &Node
    requires { IsHonest D.view kept.now }
    ensures control { result.now.control ≡ kept.now.node.control }
    ensures lawful { IsLawfulControl kept.now.node.control.nodes kept.now.node.control }
{
    kept.recovers();
    kept.node()
}

/// The groups of the node on these files with their lengths and seals, ascending by name.
pub(crate) fn groups_of<D: Disk>(alloc: Global, kept: &Kept<D>) -> Result<Vec<Shelf>, Memory>
    requires { IsHonest D.view kept.now }
    ensures { IfOk result (λ lines. lines.items ≡ shelf (node_of kept.now).groups) }
{
    Ok(kept.shelf().to_vec(alloc)?)
}

/// The digest of these files.
pub(crate) fn digest_of<D: Disk>(alloc: Global, kept: &Kept<D>) -> Result<Vec<u8>, Memory>
    requires { IsHonest D.view kept.now }
    ensures { IfOk result (λ digits. digits.items ≡ digest_text kept.now.node.control.kept (shelf (node_of kept.now).groups)) }
{
    let mut digits = Vec::new(alloc);
    put_digest(alloc, &mut digits, kept.node(), kept.shelf())?;
    Ok(digits)
}

/// The digest of files that were recovered only to be read.
pub(crate) fn digest_recovered<D: Disk + Drop>(
    alloc: Global,
    kept: Kept<D>,
) -> Result<Vec<u8>, Memory>
    requires { IsHonest D.view kept }
    ensures { IfOk result (λ digits. digits.items ≡ digest_text kept.node.control.kept (shelf (node_of kept).groups)) }
{
    digest_of(alloc, &kept)
}

/// The groups of a node that was recovered only to be read.
pub(crate) fn groups_recovered<D: Disk + Drop>(
    alloc: Global,
    kept: Kept<D>,
) -> Result<Vec<Shelf>, Memory>
    requires { IsHonest D.view kept }
    ensures { IfOk result (λ lines. lines.items ≡ shelf (node_of kept).groups) }
{
    groups_of(alloc, &kept)
}
