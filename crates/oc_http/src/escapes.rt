//! Escapes in paths (RFC 3986, section 2.1).

ghost use Rattle.std.specs.Prelude.{◌≡◌, ◌++◌, ◌<◌, IfOk, OnOk, SomeIff, string_bytes};
ghost use Rattle.std.specs.Char.{digit_value};
ghost use Rattle.oc_http.specs.Escapes.{are_digits_first, decoded, is_barred, is_escaped_well, path_text};

use oc_base::{Memory, Text};
use percent_encoding::{AsciiSet, NON_ALPHANUMERIC, ascii_set, percent_decode, percent_encode};
use std::alloc::Global;

/// The ASCII bytes that are written as escapes.
const ESCAPED: AsciiSet = ascii_set!(
    NON_ALPHANUMERIC
        .remove(b'/')
        .remove(b'-')
        .remove(b'.')
        .remove(b'_')
        .remove(b'~')
);

/// The decoded bytes of a path: `%` and two hexadecimal digits are a byte, every other byte is itself. `None` where
/// a `%` does not begin an escape, and where an escape is one of NUL or `/`.
pub(crate) fn decoded(alloc: Global, path: &[u8]) -> Result<Option<Text>, Memory>
    ensures { IfOk result (λ text. text ≡ decoded path.now) }
{
    if !is_escaped_well(path) {
        return Ok(None);
    }
    let mut bytes = Vec::with_capacity(alloc, path.len())?;
    percent_decode(path).append_to(&mut bytes)?;
    Ok(Some(Text::of(bytes)))
}

/// Whether each `%` begins an escape, of a byte other than NUL and `/`.
fn is_escaped_well(path: &[u8]) -> bool
    ensures { result ≡ is_escaped_well path.now }
{
    let mut rest = path;
    'bytes: while let Some((first, others)) = rest.split_first() {
        if *first == b'%' && !are_digits_first(others) {
            return false;
        }
        rest = others;
    }
    true
}

/// Whether two hexadecimal digits come first, of a byte other than NUL and `/`.
fn are_digits_first(bytes: &[u8]) -> bool
    ensures { result ≡ are_digits_first bytes.now }
{
    let [high, low, ..] = bytes else {
        return false;
    };
    match (digit_of(*high), digit_of(*low)) {
        (Some(high), Some(low)) => !is_barred(16 * high + low),
        _ => false,
    }
}

/// The value of a hexadecimal digit.
fn digit_of(byte: u8) -> Option<u32>
    ensures { SomeIff result (digit_value byte < 16) (digit_value byte) }
{
    char::from(byte).to_digit(16)
}

/// Whether no escape may give this byte.
fn is_barred(byte: u32) -> bool
    ensures { result ≡ is_barred byte }
{
    byte == 0 || byte == u32::from(b'/')
}

/// Puts a path, or a segment of one, after what a text has so far: each byte that is not a letter, a digit, `/`, `-`,
/// `.`, `_` or `~` as `%` and two hexadecimal digits in capitals.
pub fn put_path(out: &mut String, path: &[u8]) -> Result<(), Memory>
    ensures { OnOk result (string_bytes out.new ≡ string_bytes out.old ++ path_text path.now) }
{
    percent_encode(path, ESCAPED).append_to(out)?;
    Ok(())
}
