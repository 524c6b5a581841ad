//! Values of fields.

ghost use Rattle.std.specs.Prelude.{◌≡◌, if◌then◌else◌};
ghost use Rattle.std.specs.Str.Parse.{digits_value};
ghost use Rattle.oc_http.specs.Fields.{is_length, lists_close};

use oc_base::cut;
use oc_base::words::{are_digits, value_of};
use oc_select::text::{is_alike, trim};

/// Whether some part of a list at commas is `close`, in upper or lower case.
pub(crate) fn lists_close(value: &[u8]) -> bool
    ensures { result ≡ lists_close value.now }
{
    let mut rest = value;
    'parts: loop {
        let (part, others) = cut(rest, b',');
        if is_alike(trim(part), b"close") {
            return true;
        }
        match others {
            Some(others) => rest = others,
            None => return false,
        }
    }
}

/// The number of a Content-Length: digits of a number that fits a `u64` (RFC 9110, section 8.6).
pub fn length_of(value: &[u8]) -> Option<u64>
    ensures { result ≡ (if is_length value.now then Some (digits_value 10 value.now) else None) }
{
    if value.is_empty() || !are_digits(value) {
        return None;
    }
    value_of(value)
}
