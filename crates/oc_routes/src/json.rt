//! Values of JSON (RFC 8259), put at the end of a buffer.

ghost use Rattle.std.specs.Prelude.{◌≡◌, ◌++◌, OnOk};
ghost use Rattle.oc_routes.specs.Json.{flag_text, number_text, or_null, quoted};

use oc_base::{Memory, put, put_number, put_with_number};

/// The greatest number that every reader of JSON takes exactly, 2^53: many keep numbers in floating point.
pub(crate) const LAST_EXACT: u64 = 9_007_199_254_740_992;

/// Puts a key, and after it a number; one past `LAST_EXACT` is put in quotes.
pub(crate) fn put_field(out: &mut Vec<u8>, key: &str, number: u64) -> Result<(), Memory>
    ensures { OnOk result (out.new.items ≡ out.old.items ++ key.now ++ number_text number) }
{
    put(out, key.as_bytes())?;
    put_exact(out, number)
}

/// Puts a number; one past `LAST_EXACT` is put in quotes.
#[tactic(auto, unfolding(crate::specs::Json::number_text))]
pub(crate) fn put_exact(out: &mut Vec<u8>, number: u64) -> Result<(), Memory>
    ensures { OnOk result (out.new.items ≡ out.old.items ++ number_text number) }
{
    if number <= LAST_EXACT {
        return put_number(out, number);
    }
    put_with_number(out, b"\"", number)?;
    put(out, b"\"")
}

/// Puts a number, or `null` where there is none.
pub(crate) fn put_number_or_null(out: &mut Vec<u8>, number: Option<u64>) -> Result<(), Memory>
    ensures { OnOk result (out.new.items ≡ out.old.items ++ or_null number_text number) }
{
    match number {
        Some(number) => put_exact(out, number),
        None => put(out, b"null"),
    }
}

/// Puts a text in quotes. None of its bytes is one that JSON escapes.
pub(crate) fn put_quoted(out: &mut Vec<u8>, text: &[u8]) -> Result<(), Memory>
    ensures { OnOk result (out.new.items ≡ out.old.items ++ quoted text.now) }
{
    put(out, b"\"")?;
    put(out, text)?;
    put(out, b"\"")
}

/// Puts a key, and after it `true` or `false`.
pub(crate) fn put_flag(out: &mut Vec<u8>, key: &str, is_set: bool) -> Result<(), Memory>
    ensures { OnOk result (out.new.items ≡ out.old.items ++ key.now ++ flag_text is_set) }
{
    put(out, key.as_bytes())?;
    put(out, flag_word(is_set).as_bytes())
}

fn flag_word(is_set: bool) -> &'static str
    ensures { result.now ≡ flag_text is_set }
{
    if is_set { "true" } else { "false" }
}
