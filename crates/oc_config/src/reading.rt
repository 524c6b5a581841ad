ghost use Rattle.std.specs.Prelude.{◌≡◌, ◌≤◌, IfOk, IfSome, OnOk, All, length, vec_len};
ghost use Rattle.toml.specs.View.{table_view, view};
ghost use Rattle.oc_updown.specs.MeasureLines.{IsMeasure};
ghost use Rattle.oc_config.specs.Values.{Gives, GivesBy, section_of, sections_of};
ghost use Rattle.oc_config.specs.Reading.{IsCommon, IsConfig, Reads, ReadsTable, settings_in, with_tables, chain_in, chunk_in, network_in};
ghost use Rattle.oc_config.specs.Reading.{chain_within, keys_known, line_at, greatest_in, greatest_of, measures_in, node_tables_in};

use crate::config::{Config, FIRST_CHUNK, MAX_CHUNK};
use crate::config_key::ConfigKey;
use crate::fault::ConfigFault;
use crate::keyring::keys;
use crate::known::{check, check_all};
use crate::nodes::{Split, nodes};
use crate::rules::{rule_tables, rules};
use crate::section::Section;
use crate::section_name::Kind;
use crate::values::{tables, whole};
use oc_base::{MAX_CHAIN, MAX_NODES};
use oc_policy::Keyring;
use oc_updown::{Measure, read_lines};
use std::alloc::Global;
use toml::{Table, Value, table_from_slice};

/// The settings at the top of a configuration, for all nodes.
#[derive(Drop)]
pub(crate) struct NetworkSettings {
    pub(crate) chain: u32,
    pub(crate) nodes: Option<u32>,
    pub(crate) chunk: u32,
    pub(crate) keys: Option<Keyring>,
}

/// Reads the text of a configuration, any bytes: its settings, or its first fault.
///
/// The text is TOML. The faults come in this order: the text, the chain, the greatest id, the chunk, the key, the keys
/// that are accepted besides, the array of nodes, then table for table the fault of a node, a chain with
/// members past the greatest id, the measures, the array of rules, then table for table the fault of a rule, and
/// then a key that is none: at the top, in a table of a node, in a table of a rule.
pub fn read(alloc: Global, bytes: &[u8]) -> Result<Config, ConfigFault>
    ensures exact { Reads bytes.now result }
    ensures lawful { IfOk result IsConfig }
{
    let table = parse(alloc, bytes)?;
    read_table(alloc, &Section::top(&table))
}

/// The table that a text is.
fn parse(alloc: Global, bytes: &[u8]) -> Result<Table, ConfigFault>
    ensures { ReadsTable bytes.now result }
{
    match table_from_slice(alloc, bytes) {
        Ok(table) => Ok(table),
        Err(error) => match error.span() {
            Some(place) => Err(ConfigFault::Toml(line_at(bytes, place.start))),
            None => Err(ConfigFault::Memory),
        },
    }
}

/// The line of a place in a text, counted from 1.
fn line_at(bytes: &[u8], place: usize) -> u64
    requires { place ≤ length bytes.now }
    ensures { result ≡ line_at bytes.now place }
{
    let mut line = 1;
    for byte in &bytes[..place] {
        if *byte == b'\n' {
            line += 1;
        }
    }
    line
}

/// The settings of the table of a configuration.
fn read_table(alloc: Global, top: &Section<'_>) -> Result<Config, ConfigFault>
    ensures exact { Gives result (settings_in (section_of top.now)) }
    ensures lawful { IfOk result IsConfig }
{
    let network = read_network(alloc, top)?;
    let tables = node_tables(alloc, top)?;
    read_parts(alloc, top, network, &tables)
}

/// The settings of a configuration with these settings for all nodes, and these tables of nodes.
fn read_parts(
    alloc: Global,
    top: &Section<'_>,
    network: NetworkSettings,
    tables: &[Section<'_>],
) -> Result<Config, ConfigFault>
    requires network { IsCommon network }
    requires count { (1 ≤ length tables.now) × (length tables.now ≤ MAX_NODES) }
    ensures exact { Gives result (with_tables (section_of top.now) network (sections_of tables.now)) }
    ensures lawful { IfOk result IsConfig }
{
    let greatest = greatest_of(&network, tables);
    let places = nodes(alloc, greatest, tables)?;
    check_chain(top, network.chain, greatest)?;
    let measures = measures(alloc, top, greatest)?;
    let rule_tables = rule_tables(alloc, top)?;
    let rules = rules(alloc, &rule_tables)?;
    check_keys(top, tables, &rule_tables)?;
    let split = Split::of(alloc, places)?;
    Ok(Config {
        chain: network.chain,
        chunk: network.chunk,
        keys: network.keys,
        retired: split.retired,
        addresses: split.addresses,
        listens: split.listens,
        areas: split.areas,
        names: split.names,
        measures,
        rules,
    })
}

/// The greatest id: that of the text, or the number of tables.
fn greatest_of(network: &NetworkSettings, tables: &[Section<'_>]) -> u32
    requires network { IsCommon network.now }
    requires count { (1 ≤ length tables.now) × (length tables.now ≤ MAX_NODES) }
    ensures said { result ≡ greatest_of network.now (sections_of tables.now) }
    ensures range { (1 ≤ result) × (result ≤ MAX_NODES) }
{
    match network.nodes {
        Some(nodes) => nodes,
        None => tables.len() as u32,
    }
}

/// The settings for all nodes.
fn read_network(alloc: Global, top: &Section<'_>) -> Result<NetworkSettings, ConfigFault>
    ensures said { Gives result (network_in (section_of top.now)) }
    ensures lawful { IfOk result IsCommon }
{
    Ok(NetworkSettings {
        chain: chain(top)?,
        nodes: greatest(top)?,
        chunk: chunk(top)?,
        keys: keys(alloc, top)?,
    })
}

/// The greatest id of a node, if the text has the key.
fn greatest(top: &Section<'_>) -> Result<Option<u32>, ConfigFault>
    ensures said { result ≡ greatest_in (section_of top.now) }
    ensures range { IfOk result (λ nodes. IfSome nodes (λ n. (1 ≤ n) × (n ≤ MAX_NODES))) }
{
    match top.value_at(ConfigKey::Nodes) {
        None => Ok(None),
        Some(value) => match whole(value, 1, MAX_NODES) {
            Some(nodes) => Ok(Some(nodes)),
            None => Err(top.refuses(ConfigKey::Nodes)),
        },
    }
}

/// The number of chain members.
fn chain(top: &Section<'_>) -> Result<u32, ConfigFault>
    ensures said { result ≡ chain_in (section_of top.now) }
    ensures range { IfOk result (λ chain. (1 ≤ chain) × (chain ≤ MAX_CHAIN)) }
{
    let value = top.required(ConfigKey::Chain)?;
    whole(value, 1, MAX_CHAIN).ok_or(top.refuses(ConfigKey::Chain))
}

/// The greatest number of bytes of a chunk.
fn chunk(top: &Section<'_>) -> Result<u32, ConfigFault>
    ensures said { result ≡ chunk_in (section_of top.now) }
    ensures range { IfOk result (λ chunk. (1 ≤ chunk) × (chunk ≤ MAX_CHUNK)) }
{
    match top.value_at(ConfigKey::Chunk) {
        None => Ok(FIRST_CHUNK),
        Some(value) => whole(value, 1, MAX_CHUNK).ok_or(top.refuses(ConfigKey::Chunk)),
    }
}

/// The tables of the nodes.
fn node_tables<'a>(alloc: Global, top: &Section<'a>) -> Result<Vec<Section<'a>>, ConfigFault>
    ensures said { GivesBy (λ v. sections_of v.items) result (node_tables_in (section_of top.now)) }
    ensures count { IfOk result (λ v. (1 ≤ vec_len v) × (vec_len v ≤ MAX_NODES)) }
{
    let value = top.required(ConfigKey::Node)?;
    let fault = top.refuses(ConfigKey::Node);
    tables(alloc, value, Kind::Node, 1, MAX_NODES, fault)
}

/// Refuses a chain with members past the greatest id.
fn check_chain(top: &Section<'_>, chain: u32, nodes: u32) -> Result<(), ConfigFault>
    ensures said { result ≡ chain_within (section_of top.now) nodes chain }
    ensures within { OnOk result (chain ≤ nodes) }
{
    if chain > nodes {
        return Err(top.refuses(ConfigKey::Chain));
    }
    Ok(())
}

/// Refuses a key that its table cannot have.
fn check_keys(
    top: &Section<'_>,
    nodes: &[Section<'_>],
    rules: &[Section<'_>],
) -> Result<(), ConfigFault>
    ensures { result ≡ keys_known (section_of top.now) (sections_of nodes.now) (sections_of rules.now) }
{
    check(top)?;
    check_all(nodes)?;
    check_all(rules)
}

/// The measures, where the greatest id is `nodes`.
fn measures(alloc: Global, top: &Section<'_>, nodes: u32) -> Result<Vec<Measure>, ConfigFault>
    ensures said { GivesBy (λ v. v.items) result (measures_in nodes (section_of top.now)) }
    ensures lawful { IfOk result (λ v. All (IsMeasure nodes) v.items) }
{
    match top.value_at(ConfigKey::Measures) {
        None => Ok(Vec::new(alloc)),
        Some(value) => match value.as_str() {
            Some(text) => Ok(read_lines(alloc, text.as_bytes(), nodes)?),
            None => Err(top.refuses(ConfigKey::Measures)),
        },
    }
}
