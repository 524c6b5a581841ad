//! Locations of redirections.

use oc_updown::{follow_location, location};
use std::alloc::Global;
use test_tools::{Fault, RowFields, group_in};

/// Puts the words of a row: the Location.
pub fn put_words(alloc: Global, given: &str, said: &mut String) -> Result<(), Fault> {
    let mut fields = RowFields::of(given, ' ');
    let kind = fields.text();
    let address = fields.text();
    let group = group_in(fields.text())?;
    let start = fields.number()?;
    let text = match kind {
        "once" => location(alloc, address, &group, start)?,
        "follow" => follow_location(alloc, address, &group, start)?,
        _ => return Err(Fault::Field),
    };
    Ok(said.push_str(text.as_str())?)
}
