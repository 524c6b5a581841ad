ghost use Rattle.std.specs.Prelude.{◌≡◌, ◌≤◌, length};
ghost use Rattle.oc_merge.specs.declared.fault.TheConstants.{MAX_RECORD_PUBLISHED};
ghost use Rattle.oc_merge.specs.Reading.{nodes_of};
ghost use Rattle.oc_merge.specs.Told.{published_in};

use crate::place::Place;
use crate::told::ToldLine;
use oc_model::Header;

/// The records so far, while the lines are read.
#[derive(Drop)]
pub(crate) struct Reader {
    /// The sizes of the first header, with the areas of the first that had a start.
    pub header: Option<Header>,
    /// Whether a node has started.
    pub started: bool,
    /// The areas after the last header.
    pub areas: Vec<u8>,
    pub place: Place,
    pub lines: Vec<ToldLine>,
    /// The bytes that the lines publish.
    pub published: u64,
    ghost counted: { published ≡ published_in lines.items },
    ghost within: { published ≤ MAX_RECORD_PUBLISHED },
    ghost sized: { length areas.items ≡ nodes_of header },
}
