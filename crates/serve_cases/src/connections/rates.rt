//! Rates by two readings of the clock.

use oc_probe::rate_of;
use test_tools::{Fault, RowFields};

/// Puts the words of a row: the rate.
pub fn put_words(given: &str, said: &mut String) -> Result<(), Fault> {
    let mut fields = RowFields::of(given, ' ');
    let rate = rate_of(fields.number()?, fields.number()?);
    Ok(write!(said, "{rate}")?)
}
