//! Writers of texts, each at the end of a buffer. If memory runs out, the buffer does not change.

ghost use Rattle.std.specs.Prelude.{◌≡◌, ◌++◌, OnOk, OnErr, decimal};

use crate::Memory;
use itoa::Buffer;

/// Writes a text.
pub fn put(out: &mut Vec<u8>, text: &[u8]) -> Result<(), Memory>
    ensures ok { OnOk result (out.new.items ≡ out.old.items ++ text.now) }
    ensures err { OnErr result (out.new.items ≡ out.old.items) }
{
    out.extend_from_slice(text)?;
    Ok(())
}

/// Writes a number in decimal, without leading zeros.
pub fn put_number(out: &mut Vec<u8>, number: u64) -> Result<(), Memory>
    ensures ok { OnOk result (out.new.items ≡ out.old.items ++ decimal number) }
    ensures err { OnErr result (out.new.items ≡ out.old.items) }
{
    put(out, Buffer::new().format(number).as_bytes())
}

/// Writes a text, and a number in decimal after it.
pub fn put_with_number(out: &mut Vec<u8>, text: &[u8], number: u64) -> Result<(), Memory>
    ensures ok { OnOk result (out.new.items ≡ out.old.items ++ text.now ++ decimal number) }
    ensures err { OnErr result (out.new.items ≡ out.old.items) }
{
    let start = out.len();
    put(out, text)?;
    let done = put_number(out, number);
    if done.is_err() {
        out.truncate(start);
    }
    done
}
