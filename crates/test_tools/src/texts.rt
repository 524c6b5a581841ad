use crate::fault::Fault;
use std::fmt::Debug;

/// Appends bytes in hexadecimal, or `-` for none.
pub fn put_hex(out: &mut String, bytes: &[u8]) -> Result<(), Fault> {
    if bytes.is_empty() {
        return Ok(out.push_str("-")?);
    }
    for byte in bytes {
        write!(out, "{byte:02x}")?;
    }
    Ok(())
}

/// Appends a value in its debug form, and a space.
pub fn put_shown<T: Debug>(out: &mut String, value: &T) -> Result<(), Fault> {
    Ok(write!(out, "{value:?} ")?)
}
