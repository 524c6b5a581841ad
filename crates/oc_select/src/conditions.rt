//! The conditions of a request.

ghost use Rattle.std.specs.Prelude.{◌≡◌};
ghost use Rattle.oc_select.specs.Conditions.{change_of, date_in, is_after, is_change, is_current, is_known, is_refused, is_until};

use crate::content::Source;
use crate::naming::{Comparison, Naming};
use crate::ranges::only;
use crate::scanning::naming;
use crate::selectors::Selectors;
use httpdate::HttpDate;
use oc_base::Text;

/// The last change of a content; a group has none that is told.
pub(crate) fn change_of(source: Source) -> Option<HttpDate>
    ensures { result ≡ change_of source }
{
    match source {
        Source::Group { .. } => None,
        Source::File { changed, .. } => changed,
    }
}

/// Whether a condition forbids to give the content with this tag and this last change: If-Match names other contents, or
/// there is no such field, and the content has changed after If-Unmodified-Since.
pub(crate) fn is_refused(tag: &[u8], change: Option<HttpDate>, selectors: &Selectors) -> bool
    ensures { result ≡ is_refused tag.now change selectors.now }
{
    let tags = selectors.if_match.items();
    if tags.is_empty() {
        return is_after(change, date_in(selectors.if_unmodified_since.items()));
    }
    matches!(naming(Comparison::Strong, tag, tags), Naming::Other)
}

/// Whether the client has the content with this tag and this last change: If-None-Match names it, or there is no such
/// field, and the content has not changed after If-Modified-Since.
pub(crate) fn is_known(tag: &[u8], change: Option<HttpDate>, selectors: &Selectors) -> bool
    ensures { result ≡ is_known tag.now change selectors.now }
{
    let tags = selectors.if_none_match.items();
    if tags.is_empty() {
        return is_until(change, date_in(selectors.if_modified_since.items()));
    }
    matches!(naming(Comparison::Weak, tag, tags), Naming::Named)
}

/// Whether If-Range lets a range count: there is no such field, or just one with the tag or the last change.
pub(crate) fn is_current(tag: &[u8], change: Option<HttpDate>, if_range: &[Text]) -> bool
    ensures { result ≡ is_current tag.now change if_range.now }
{
    match if_range {
        [] => true,
        [value] => value.items() == tag || is_change(change, value.items()),
        _ => false,
    }
}

/// The second of a date field; `None` where it is no date, and where there is not just one.
fn date_in(values: &[Text]) -> Option<u64>
    ensures { result ≡ date_in values.now }
{
    match HttpDate::parse_ascii(only(values)?) {
        Ok(date) => Some(date.unix_secs()),
        Err(_) => None,
    }
}

/// Whether the content has changed after this second.
fn is_after(change: Option<HttpDate>, second: Option<u64>) -> bool
    ensures { result ≡ is_after change second }
{
    match (change, second) {
        (Some(change), Some(second)) => second < change.unix_secs(),
        _ => false,
    }
}

/// Whether the content has not changed after this second.
fn is_until(change: Option<HttpDate>, second: Option<u64>) -> bool
    ensures { result ≡ is_until change second }
{
    match (change, second) {
        (Some(change), Some(second)) => change.unix_secs() <= second,
        _ => false,
    }
}

/// Whether a value is exactly the text of the last change.
fn is_change(change: Option<HttpDate>, value: &[u8]) -> bool
    ensures { result ≡ is_change change value.now }
{
    match change {
        Some(change) => value == change.to_bytes().as_slice(),
        None => false,
    }
}
