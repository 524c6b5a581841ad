//! Configurations that are read again.

use crate::service::texts::text_in;
use oc_config::{Config, Measure, Running, config_change, has_measure, read};
use std::alloc::Global;
use test_tools::{Fault, RowFields};

/// Puts the words of a row: that the second configuration is taken over, with the measures that are new, or the key
/// that needs a new start.
pub fn put_words(alloc: Global, given: &str, said: &mut String) -> Result<(), Fault> {
    let mut fields = RowFields::of(given, '|');
    let mut first = RowFields::of(fields.text(), ' ');
    let running = Running {
        me: first.node()?,
        recorded: first.text() == "recorded",
    };
    let old = config_in(alloc, fields.text())?;
    let new = config_in(alloc, fields.text())?;
    match config_change(running, &old, new) {
        Ok(config) => put_taken(said, running, &old, &config),
        Err(key) => Ok(write!(said, "restart {key}")?),
    }
}

/// The configuration that a text is.
fn config_in(alloc: Global, text: &str) -> Result<Config, Fault> {
    match read(alloc, &text_in(alloc, text)?) {
        Ok(config) => Ok(config),
        Err(_) => Err(Fault::Unready),
    }
}

/// Puts how many measures of the node are new.
fn put_taken(said: &mut String, running: Running, old: &Config, new: &Config) -> Result<(), Fault> {
    let mut count: u32 = 0;
    for measure in &new.measures {
        if is_new(*measure, running, old) {
            count = count.saturating_add(1);
        }
    }
    Ok(write!(said, "taken {count}")?)
}

fn is_new(measure: Measure, running: Running, old: &Config) -> bool {
    measure.from == running.me && !has_measure(measure, &old.measures)
}
