ghost use Rattle.std.specs.Prelude.{◌≡◌, ◌⊎◌};

use oc_base::NodeId;

/// A node that a climb has passed: a climb that comes to it again goes round in a loop.
///
/// The post is moved ever more rarely (Brent's method to find a loop), so a climb that goes round ends
/// after about three times as many steps as it has passed rows.
#[derive(Clone, Copy)]
pub(crate) struct Post {
    pub(crate) node: NodeId,
    /// The number of steps until the post is moved.
    left: usize,
    /// The number of steps between the last two moves.
    stride: usize,
}

impl Post {
    pub(crate) fn at(node: NodeId) -> Post
        ensures { result.node ≡ node }
    {
        Post {
            node,
            left: 0,
            stride: 1,
        }
    }

    /// The post after a step to this node.
    pub(crate) fn after(self, node: NodeId) -> Post
        ensures { (result.node ≡ node) ⊎ (result.node ≡ self.node) }
    {
        if self.left == 0 {
            let stride = self.stride.saturating_mul(2);
            Post {
                node,
                left: stride,
                stride,
            }
        } else {
            Post {
                left: self.left - 1,
                ..self
            }
        }
    }
}
