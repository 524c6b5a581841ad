//! The target of a request.

ghost use Rattle.std.specs.Prelude.{◌≡◌};
ghost use Rattle.oc_http.specs.Targets.{is_absolute, from_slash, origin_form, path_of, query_of};

use oc_base::{cut_at_first, place_of};
use oc_select::text::is_alike;

/// The beginning of a target that has scheme and authority, in upper or lower case.
const SCHEME: &str = "http://";

/// The target up to the first `?`, and the bytes after it, without scheme and authority.
pub fn path_and_query(target: &[u8]) -> (&[u8], &[u8])
    ensures path { result.0.now ≡ path_of target.now }
    ensures query { result.1.now ≡ query_of target.now }
{
    cut_at_first(origin_form(target), b'?')
}

/// The target without scheme and authority (RFC 9112, section 3.2).
fn origin_form(target: &[u8]) -> &[u8]
    ensures { result.now ≡ origin_form target.now }
{
    if !is_absolute(target) {
        return target;
    }
    from_slash(&target[SCHEME.len()..])
}

fn is_absolute(target: &[u8]) -> bool
    ensures { result ≡ is_absolute target.now }
{
    target.len() >= SCHEME.len() && is_alike(&target[..SCHEME.len()], SCHEME.as_bytes())
}

/// The bytes from the first slash on, or a slash where there is none.
fn from_slash(rest: &[u8]) -> &[u8]
    ensures { result.now ≡ from_slash rest.now }
{
    match place_of(rest, b'/') {
        Some(at) => &rest[at..],
        None => b"/",
    }
}
