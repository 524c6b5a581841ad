//! Texts appended to a buffer.

ghost use Rattle.std.specs.Prelude.{◌≡◌, [], ◌∷◌, ◌++◌, OnOk, decimal};
ghost use Rattle.oc_replay.specs.Bodies.{mark};

use oc_base::{Memory, put, put_number};

/// Appends one byte.
pub(crate) fn put_byte(out: &mut Vec<u8>, byte: u8) -> Result<(), Memory>
    ensures { OnOk result (out.new.items ≡ out.old.items ++ byte ∷ []) }
{
    out.push(byte)?;
    Ok(())
}

/// Appends one byte, and after it a number in decimal.
pub(crate) fn put_byte_number(out: &mut Vec<u8>, byte: u8, number: u64) -> Result<(), Memory>
    ensures { OnOk result (out.new.items ≡ out.old.items ++ byte ∷ decimal number) }
{
    put_byte(out, byte)?;
    put_number(out, number)
}

/// Appends a mark, if it is due.
pub(crate) fn put_mark(out: &mut Vec<u8>, due: bool, text: &str) -> Result<(), Memory>
    ensures { OnOk result (out.new.items ≡ out.old.items ++ mark due text.now) }
{
    if due {
        put(out, text.as_bytes())?;
    }
    Ok(())
}
