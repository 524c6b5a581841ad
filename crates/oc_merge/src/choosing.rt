//! The choice of the line that a merge takes next.

ghost use Rattle.std.specs.Prelude.{◌≡◌, ◌+◌, ◌<◌, length};
ghost use Rattle.oc_merge.specs.Heads.{IsFirstChoice, is_before};

use crate::heads::Head;
use crate::way::Way;

/// A line that can be taken.
#[derive(Clone, Copy, Debug)]
pub(crate) struct Choice {
    /// The index of the line.
    pub place: usize,
    pub way: Way,
}

/// Whether a line comes before the chosen one, if there is one.
fn is_before(place: usize, chosen: Option<Choice>) -> bool
    ensures { result ≡ is_before place chosen }
{
    match chosen {
        None => true,
        Some(other) => place < other.place,
    }
}

/// The choice after one more head is looked at.
fn chosen_with(heads: &[Head], chosen: Option<Choice>, index: usize) -> Option<Choice>
    requires index { index < length heads.now }
    requires chosen { IsFirstChoice heads.now index chosen }
    ensures { IsFirstChoice heads.now (index + 1) result }
{
    let head = heads[index];
    match head.way {
        None => chosen,
        Some(way) => {
            if is_before(head.place, chosen) {
                Some(Choice {
                    place: head.place,
                    way,
                })
            } else {
                chosen
            }
        }
    }
}

/// The first line that can be taken, if there is one.
pub(crate) fn first_choice(heads: &[Head]) -> Option<Choice>
    ensures { IsFirstChoice heads.now (length heads.now) result }
{
    let mut chosen = None;
    for index in 0..heads.len() {
        chosen = chosen_with(heads, chosen, index);
    }
    chosen
}
