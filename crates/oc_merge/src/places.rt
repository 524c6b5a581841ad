//! The places of each node's lines among all lines.

ghost use Rattle.std.specs.Prelude.{◌≡◌, IfOk};
ghost use Rattle.std.specs.List.{AllByRecursion};
ghost use Rattle.oc_merge.specs.Heads.{ArePlacesFrom};
ghost use Rattle.oc_merge.specs.Records.{IsLine};

use crate::told::ToldLine;
use oc_base::Memory;
use std::alloc::Global;

/// The indexes of each node's lines. An index after all lines means that there is none.
#[derive(Debug, Drop)]
pub(crate) struct Places {
    /// The index of the first line of each node, by its number.
    pub first: Vec<usize>,
    /// The index of the next line of the same node, for each line.
    pub next: Vec<usize>,
}

/// Finds the indexes, in one walk over the lines from the last to the first.
pub(crate) fn find_places(alloc: Global, nodes: u32, lines: &[ToldLine]) -> Result<Places, Memory>
    requires { AllByRecursion (IsLine nodes) lines.now }
    ensures { IfOk result (λ places. ArePlacesFrom nodes lines.now 0 places.first.items places.next.items) }
{
    let mut first = vec![in alloc; lines.len(); nodes as usize]?;
    let mut next = vec![in alloc; 0; lines.len()]?;
    let mut place = lines.len();
    'lines: while place > 0 {
        place -= 1;
        let at = lines[place].node.index();
        next[place] = first[at];
        first[at] = place;
    }
    Ok(Places { first, next })
}
