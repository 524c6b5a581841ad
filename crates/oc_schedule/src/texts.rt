//! Texts put at the end of a buffer.

ghost use Rattle.std.specs.Prelude.{◌≡◌, ◌++◌, OnOk, codes, decimal};
ghost use Rattle.hex.specs.Hex.{encode_lower};
ghost use Rattle.oc_schedule.specs.Fields.{bytes_text};

use oc_base::{Memory, put, put_with_number};

/// Puts a space and a word.
pub(crate) fn put_field(out: &mut Vec<u8>, word: &[u8]) -> Result<(), Memory>
    ensures { OnOk result (out.new.items ≡ out.old.items ++ (codes " " ++ word.now)) }
{
    put(out, b" ")?;
    put(out, word)
}

/// Puts a space and a number.
pub(crate) fn put_number_field(out: &mut Vec<u8>, number: u64) -> Result<(), Memory>
    ensures { OnOk result (out.new.items ≡ out.old.items ++ (codes " " ++ decimal number)) }
{
    put_with_number(out, b" ", number)
}

/// Puts bytes in hexadecimal, two lower-case digits each, or `-` where there are none.
pub fn put_bytes(out: &mut Vec<u8>, bytes: &[u8]) -> Result<(), Memory>
    ensures { OnOk result (out.new.items ≡ out.old.items ++ bytes_text bytes.now) }
{
    if bytes.is_empty() {
        put(out, b"-")
    } else {
        put_hex(out, bytes)
    }
}

/// Puts bytes in hexadecimal, two digits for each.
pub(crate) fn put_hex(out: &mut Vec<u8>, bytes: &[u8]) -> Result<(), Memory>
    ensures { OnOk result (out.new.items ≡ out.old.items ++ encode_lower bytes.now) }
{
    let start = out.len();
    let Some(digits) = bytes.len().checked_mul(2) else {
        return Err(Memory);
    };
    let Some(end) = start.checked_add(digits) else {
        return Err(Memory);
    };
    out.resize(end, 0)?;
    hex::encode_to_slice(bytes, &mut out[start..]).unwrap();
    Ok(())
}
