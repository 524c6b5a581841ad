ghost use Rattle.std.specs.Prelude.{◌≡◌, length};
ghost use Rattle.std.specs.Str.{bytes_eq};
ghost use Rattle.oc_schedule.specs.Fields.{group_in, bytes_in};
ghost use Rattle.oc_schedule.specs.Reading.{GivesLine};

use crate::fault::LineFault;
use hex::FromHexError;
use oc_base::{Bytes, GroupName, Why};
use std::alloc::Global;

/// Whether a word is this text. The lengths are compared first, since most words differ from a text in length.
#[tactic(auto, using(crate::proofs::Alike::of_other_length))]
pub(crate) fn is(word: &[u8], text: &str) -> bool
    ensures { result ≡ bytes_eq word.now text.now }
{
    let text = text.as_bytes();
    if word.len() != text.len() {
        return false;
    }
    are_same(word, text)
}

/// Whether two texts of the same length are the same.
#[tactic(auto, using(crate::proofs::Alike::are_read))]
fn are_same(a: &[u8], b: &[u8]) -> bool
    requires { length a.now ≡ length b.now }
    ensures { result ≡ bytes_eq a.now b.now }
{
    for i in 0..a.len() {
        if a[i] != b[i] {
            return false;
        }
    }
    true
}

/// The group that a field names.
pub(crate) fn group(field: &[u8]) -> Result<GroupName, Why>
    ensures { result ≡ group_in field.now }
{
    GroupName::parse(field).map_err(|_| Why::Group)
}

/// The bytes that a field writes in hexadecimal; none for `-`.
pub(crate) fn bytes(alloc: Global, field: &[u8]) -> Result<Bytes, LineFault>
    ensures { GivesLine result (bytes_in field.now) }
{
    match field {
        [b'-'] => Ok(Bytes::of(Vec::new(alloc))),
        [] => Err(LineFault::Cause(Why::Hex)),
        _ => match hex::decode(alloc, field) {
            Ok(bytes) => Ok(Bytes::of(bytes)),
            Err(FromHexError::OutOfMemory) => Err(LineFault::Memory),
            Err(_) => Err(LineFault::Cause(Why::Hex)),
        },
    }
}
