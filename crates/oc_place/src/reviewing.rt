ghost use Rattle.std.specs.Prelude.{◌≡◌};
ghost use Rattle.oc_model.specs.Choice.{reviewed};

use crate::{View, choose};
use oc_model::Review;

/// The result of a review: up, if the way to the grandparent through the parent is more than a tenth worse
/// than the direct one; else beneath the sibling that [`choose`] gives; else the present place.
pub fn review(view: &View) -> Review
    ensures { result ≡ reviewed view.now }
{
    let through = view.direct.min(view.up);
    match view.grand {
        Some((grand, rate)) if 10 * u128::from(through) < 9 * u128::from(rate) => Review::Up(grand),
        _ => match choose(view.direct, view.siblings) {
            Some(sibling) => Review::Beneath(sibling),
            None => Review::Stay,
        },
    }
}
