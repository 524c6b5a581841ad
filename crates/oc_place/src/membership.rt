ghost use Rattle.std.specs.Prelude.{◌≡◌};
ghost use Rattle.oc_model.specs.Numbers.{has};

use oc_base::NodeId;

/// Whether the id is in the list.
pub(crate) fn is_among(id: NodeId, ids: &[NodeId]) -> bool
    ensures { result ≡ has ids.now id }
{
    ids.contains(&id)
}
