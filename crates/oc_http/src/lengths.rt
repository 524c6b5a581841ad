//! The length that the fields of a head give.

ghost use Rattle.std.specs.Prelude.{◌≡◌};
ghost use Rattle.oc_http.specs.Fields.{codings, lengths};
ghost use Rattle.oc_http.specs.Lengths.{content_length, checked_length};

use crate::fault::HttpFault;
use crate::{FieldMatch, Fields, length_of};

/// The number of Content-Length, `None` where there is none. A transfer coding is refused first, then
/// a length that is not just one number.
pub(crate) fn checked_length(fields: &Fields) -> Result<Option<u64>, HttpFault>
    ensures { result ≡ checked_length (codings fields.now) (lengths fields.now) }
{
    if fields.is_present("transfer-encoding") {
        return Err(HttpFault::Coding {
            both: fields.is_present("content-length"),
        });
    }
    content_length(fields)
}

/// The number of Content-Length, `None` where there is none.
pub(crate) fn content_length(fields: &Fields) -> Result<Option<u64>, HttpFault>
    ensures { result ≡ content_length (lengths fields.now) }
{
    match fields.find("content-length") {
        FieldMatch::Absent => Ok(None),
        FieldMatch::One(value) => match length_of(value) {
            Some(length) => Ok(Some(length)),
            None => Err(HttpFault::Length { missing: false }),
        },
        FieldMatch::Several(_) => Err(HttpFault::Length { missing: false }),
    }
}
