//! Configurations: their settings, or their faults.

use crate::service::measure_lines::put_measure;
use crate::service::rules::put_rules;
use crate::service::texts::text_in;
use oc_config::{Config, ConfigFault, FIRST_CHUNK, read};
use std::alloc::Global;
use test_tools::Fault;

/// Appends the words of a row: the settings of the text, or its fault.
pub fn put_words(alloc: Global, given: &str, said: &mut String) -> Result<(), Fault> {
    put_read(alloc, &text_in(alloc, given)?, said)
}

/// Appends the settings of a text, or its fault.
fn put_read(alloc: Global, text: &[u8], said: &mut String) -> Result<(), Fault> {
    match read(alloc, text) {
        Ok(config) => put_config(said, &config),
        Err(ConfigFault::Memory) => Err(Fault::Memory),
        Err(fault) => Ok(write!(said, "{fault}")?),
    }
}

/// Puts what a configuration says: the chain, the chunk where it is not the first one, `key` where it has keys, and how
/// many are accepted besides, what is said of each node, the measures and the rules.
fn put_config(said: &mut String, config: &Config) -> Result<(), Fault> {
    let chain = config.chain;
    write!(said, "{chain}")?;
    put_chunk(said, config.chunk())?;
    put_keys(said, config)?;
    said.push_str(" |")?;
    for place in 0..config.addresses.len() {
        put_node(said, config, place)?;
    }
    said.push_str(" |")?;
    for measure in &config.measures {
        said.push_str(" ")?;
        put_measure(said, measure)?;
    }
    said.push_str(" |")?;
    put_rules(said, &config.rules)
}

/// Appends the chunk, if it is not the default.
fn put_chunk(said: &mut String, chunk: u32) -> Result<(), Fault> {
    if chunk != FIRST_CHUNK {
        write!(said, " chunk {chunk}")?;
    }
    Ok(())
}

/// Puts that there is a key, and how many others are accepted, where there are some.
fn put_keys(said: &mut String, config: &Config) -> Result<(), Fault> {
    if let Some(keys) = &config.keys {
        said.push_str(" key")?;
        if !keys.accept.is_empty() {
            let count = keys.accept.len();
            write!(said, "+{count}")?;
        }
    }
    Ok(())
}

/// Puts the address of a node, or `-`, where it listens if that is elsewhere, its area, its name, if it has one, and
/// whether it is retired.
fn put_node(said: &mut String, config: &Config, place: usize) -> Result<(), Fault> {
    let address = text_at(&config.addresses, place);
    let listen = text_at(&config.listens, place);
    write!(said, " {address}")?;
    if listen != address {
        write!(said, "@{listen}")?;
    }
    let area = config.areas.get(place).ok_or(Fault::Unready)?;
    write!(said, "/{area}")?;
    if let Some(Some(name)) = config.names.get(place) {
        write!(said, "({name})")?;
    }
    if let Some(true) = config.retired.get(place) {
        said.push_str(" retired")?;
    }
    Ok(())
}

/// What is said at a place, or `-`.
fn text_at(texts: &[Option<String>], place: usize) -> &str {
    match texts.get(place) {
        Some(Some(text)) => text.as_str(),
        _ => "-",
    }
}
