//! Ranges of bytes.

ghost use Rattle.std.specs.Prelude.{◌≡◌, ◌-◌, IfSome, min, option_map};
ghost use Rattle.oc_select.specs.Ranges.{IsInOrder, number_in, part_of, range_asked, range_in, range_of, range_spelled};
ghost use Rattle.oc_select.specs.Values.{only_of};
ghost use Rattle.oc_select.specs.declared.selection.Selection.TheVariants.{Part};

use crate::range::Range;
use crate::selection::Selection;
use crate::text::is_alike;
use oc_base::words::{are_digits, value_of};
use oc_base::{Text, cut_at_first, place_of};

/// The unit of ranges, which is written in any case.
const UNIT: &[u8] = b"bytes";

/// The greatest number of digits of a number in a range: each number of so many fits.
const MAX_DIGITS: usize = 19;

/// The value of a field, where there is just one.
pub(crate) fn only(values: &[Text]) -> Option<&[u8]>
    ensures { option_map (λ value. value.now) result ≡ only_of values.now }
{
    match values {
        [value] => Some(value.items()),
        _ => None,
    }
}

/// The range that the Range field asks for; `None` where it asks for something else, or there is not just one field.
pub(crate) fn range_asked(values: &[Text]) -> Option<Range>
    ensures asked { result ≡ range_asked values.now }
    ensures in_order { IfSome result IsInOrder }
{
    range_in(only(values)?)
}

/// The range that a value of Range asks for; `None` where it is not `bytes`, `=` and exactly one range.
fn range_in(value: &[u8]) -> Option<Range>
    ensures asked { result ≡ range_in value.now }
    ensures in_order { IfSome result IsInOrder }
{
    let (unit, range) = cut_at_first(value, b'=');
    if !is_alike(unit, UNIT) {
        return None;
    }
    range_spelled(range)
}

/// The one range that a text spells.
fn range_spelled(text: &[u8]) -> Option<Range>
    ensures asked { result ≡ range_spelled text.now }
    ensures in_order { IfSome result IsInOrder }
{
    if place_of(text, b'-').is_none() {
        return None;
    }
    let (before, after) = cut_at_first(text, b'-');
    range_of(before, after)
}

/// The range with these texts before and after its `-`.
fn range_of(before: &[u8], after: &[u8]) -> Option<Range>
    ensures asked { result ≡ range_of before.now after.now }
    ensures in_order { IfSome result IsInOrder }
{
    if before.is_empty() {
        let count = number_in(after)?;
        return Some(Range::Last { count });
    }
    let first = number_in(before)?;
    if after.is_empty() {
        return Some(Range::From { first });
    }
    let last = number_in(after)?;
    if first > last {
        return None;
    }
    Some(Range::Between { first, last })
}

/// The number that a text of 1 to 19 digits spells.
fn number_in(text: &[u8]) -> Option<u64>
    ensures { result ≡ number_in text.now }
{
    if text.is_empty() || text.len() > MAX_DIGITS || !are_digits(text) {
        return None;
    }
    value_of(text)
}

/// The part of a content of this length that a range is.
pub(crate) fn part_of(length: u64, range: Range) -> Selection
    requires { IsInOrder range }
    ensures { result ≡ part_of length range }
{
    match range {
        Range::Between { first, .. } | Range::From { first } if first >= length => {
            Selection::Unsatisfiable
        }
        Range::Between { first, last } => Selection::Part {
            start: first,
            count: last.min(length - 1) - first + 1,
        },
        Range::From { first } => Selection::Part {
            start: first,
            count: length - first,
        },
        Range::Last { count: 0 } => Selection::Unsatisfiable,
        Range::Last { .. } if length == 0 => Selection::Whole,
        Range::Last { count } => last_part(length, count),
    }
}

/// The last bytes of a content of this length, so many, or all of them where it has fewer.
fn last_part(length: u64, count: u64) -> Selection
    ensures { result ≡ Part (length - min count length) (min count length) }
{
    let count = count.min(length);
    Selection::Part {
        start: length - count,
        count,
    }
}
