//! Bytes as fields of a row.

use std::alloc::Global;
use test_tools::{Fault, RowFields};

/// An upper bound on the fields of a text of bytes.
const MOST_FIELDS: u32 = 1_000;

/// The bytes of fields, one after another: `7` is a number in eight bytes, `#7` in four, `.7` in
/// one, and `x2f61` is bytes. A word before the `#` and the `.` is a label.
pub fn spelled(alloc: Global, mut fields: RowFields<'_>) -> Result<Vec<u8>, Fault> {
    let mut bytes = Vec::new(alloc);
    for _ in 0..MOST_FIELDS {
        if fields.is_empty() {
            break;
        }
        put_field(alloc, &mut bytes, fields.text())?;
    }
    Ok(bytes)
}

fn put_field(alloc: Global, bytes: &mut Vec<u8>, field: &str) -> Result<(), Fault> {
    if let Some((_, number)) = field.split_once('#') {
        let number = RowFields::of(number, ' ').small()?;
        bytes.extend_from_slice(&number.to_be_bytes())?;
    } else if let Some((_, number)) = field.split_once('.') {
        bytes.push(RowFields::of(number, ' ').byte()?)?;
    } else if let Some(hex) = field.strip_prefix('x') {
        bytes.extend_from_slice(&RowFields::of(hex, ' ').bytes(alloc)?)?;
    } else {
        let number = RowFields::of(field, ' ').number()?;
        bytes.extend_from_slice(&number.to_be_bytes())?;
    }
    Ok(())
}
