//! What a request selects of a content.

ghost use Rattle.std.specs.Prelude.{◌≡◌, IfOk, IfSome};
ghost use Rattle.oc_select.specs.Ranges.{IsInOrder};
ghost use Rattle.oc_select.specs.Selecting.{has_ranges, range_for, selected, selection};

use crate::conditions::{change_of, is_current, is_known, is_refused};
use crate::content::{Content, Source};
use crate::range::Range;
use crate::ranges::{part_of, range_asked};
use crate::selection::Selection;
use crate::selectors::{RequestLine, Selectors};
use crate::texts::put_tag;
use oc_base::Memory;
use std::alloc::Global;

/// What a request selects of a content: its conditions come first, in the order of RFC 9110, and then its range.
pub fn select(
    alloc: Global,
    content: &Content,
    line: RequestLine,
    selectors: &Selectors,
) -> Result<Selection, Memory>
    ensures { IfOk result (λ s. s ≡ selection content.now line selectors.now) }
{
    let mut tag = Vec::new(alloc);
    put_tag(&mut tag, content)?;
    Ok(selected(tag.as_slice(), content, line, selectors))
}

/// What is selected of a content with this tag.
fn selected(tag: &[u8], content: &Content, line: RequestLine, selectors: &Selectors) -> Selection
    ensures { result ≡ selected tag.now content.now line selectors.now }
{
    let change = change_of(content.source);
    if is_refused(tag, change, selectors) {
        return Selection::PreconditionFailed;
    }
    if is_known(tag, change, selectors) {
        return Selection::NotModified;
    }
    match range_for(tag, content.source, line, selectors) {
        Some(range) => part_of(content.length, range),
        None => Selection::Whole,
    }
}

/// The range of a content that counts.
fn range_for(tag: &[u8], source: Source, line: RequestLine, selectors: &Selectors) -> Option<Range>
    ensures counts { result ≡ range_for tag.now source line selectors.now }
    ensures in_order { IfSome result IsInOrder }
{
    if !has_ranges(source, line) {
        return None;
    }
    if !is_current(tag, change_of(source), selectors.if_range.items()) {
        return None;
    }
    range_asked(selectors.range.items())
}

/// Whether ranges of a content count at all: in GET, and of a group without a start.
fn has_ranges(source: Source, line: RequestLine) -> bool
    ensures { result ≡ has_ranges source line }
{
    match source {
        Source::Group { .. } => line.is_get && !line.has_start,
        Source::File { .. } => line.is_get,
    }
}
