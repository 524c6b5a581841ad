//! The tables of nodes.

ghost use Rattle.std.specs.Prelude.{◌≡◌, ◌≤◌, ◌++◌, IfOk, OnOk, Bool, List, [], ◌∷◌, Option, None, length, option_map, string_bytes, vec_len, replicate};
ghost use Rattle.std.specs.List.{list_any};
ghost use Rattle.oc_config.specs.Values.{Gives, GivesBy, section_of, sections_of};
ghost use Rattle.oc_config.specs.Nodes.{AreOf, GivesNode, has_address, id_in, is_taken, is_text, address_in, address_unless, listen_in, listen_of};
ghost use Rattle.oc_config.specs.Nodes.{is_new, name_in, name_of, new_entry_in, node_area_in, entry_with, nodes_in, retired_in, retired_of, said_at};
ghost use Rattle.oc_config.specs.Settings.{NodeSettings};
ghost use Rattle.toml.specs.View.{view};

use crate::address::{is_address, is_reachable};
use crate::config_key::ConfigKey;
use crate::fault::ConfigFault;
use crate::name::is_name;
use crate::node_entry::NodeEntry;
use crate::section::Section;
use crate::values::whole;
use oc_base::{MAX_NODES, Memory};
use std::alloc::Global;
use toml::Value;

/// The settings of each node, by its id, where the greatest id is `greatest`. Each id occurs in one table at most.
pub(crate) fn nodes(
    alloc: Global,
    greatest: u32,
    tables: &[Section<'_>],
) -> Result<Vec<Option<NodeEntry>>, ConfigFault>
    requires { greatest ≤ MAX_NODES }
    ensures { GivesBy (λ v. v.items) result (nodes_in (replicate greatest None) (sections_of tables.now)) }
{
    let mut places = free_places(alloc, greatest)?;
    for table in tables {
        put_node(alloc, &mut places, table)?;
    }
    Ok(places)
}

/// `count` empty places.
fn free_places(alloc: Global, count: u32) -> Result<Vec<Option<NodeEntry>>, Memory>
    ensures { IfOk result (λ v. v.items ≡ replicate count None) }
{
    let mut places = Vec::new(alloc);
    for _ in 0..count {
        places.push(None)?;
    }
    Ok(places)
}

/// Puts the node of a table at the place of its id.
fn put_node(
    alloc: Global,
    places: &mut Vec<Option<NodeEntry>>,
    table: &Section<'_>,
) -> Result<(), ConfigFault>
    requires { vec_len places.old ≤ MAX_NODES }
    ensures said { GivesNode result places.old.items places.new.items (section_of table.now) }
    ensures len { vec_len places.new ≡ vec_len places.old }
{
    let id = id(table, places.len())?;
    let place = id as usize - 1;
    if places[place].is_some() {
        return Err(ConfigFault::Repeat(table.place, id));
    }
    places[place] = Some(new_entry(alloc, places, table)?);
    Ok(())
}

/// The id in a table, where the greatest is `nodes`.
fn id(table: &Section<'_>, nodes: usize) -> Result<u32, ConfigFault>
    requires { nodes ≤ MAX_NODES }
    ensures said { result ≡ id_in nodes (section_of table.now) }
    ensures range { IfOk result (λ id. (1 ≤ id) × (id ≤ nodes)) }
{
    let value = table.required(ConfigKey::Id)?;
    whole(value, 1, nodes as u32).ok_or(table.refuses(ConfigKey::Id))
}

/// The node of a table, apart from its id, where no node before has its address.
fn new_entry(
    alloc: Global,
    places: &[Option<NodeEntry>],
    table: &Section<'_>,
) -> Result<NodeEntry, ConfigFault>
    ensures { Gives result (new_entry_in places.now (section_of table.now)) }
{
    let retired = retired(table)?;
    let address = address_unless(retired, table)?;
    check_new(places, table, address)?;
    entry(alloc, table, retired, address)
}

/// Refuses an address that a node before has.
fn check_new(
    places: &[Option<NodeEntry>],
    table: &Section<'_>,
    address: Option<&str>,
) -> Result<(), ConfigFault>
    ensures { result ≡ is_new places.now (section_of table.now) (option_map (λ s. s.now) address.entry) }
{
    if is_taken(places, address) {
        return Err(table.refuses(ConfigKey::Address));
    }
    Ok(())
}

/// Whether one of these nodes has this address.
fn is_taken(places: &[Option<NodeEntry>], address: Option<&str>) -> bool
    ensures { result ≡ is_taken places.now (option_map (λ s. s.now) address.entry) }
{
    match address {
        Some(address) => is_address_of_any(places, address),
        None => false,
    }
}

fn is_address_of_any(places: &[Option<NodeEntry>], address: &str) -> bool
    ensures { result ≡ list_any (has_address address.now) places.now }
{
    places.iter().any(|place| has_address(place, address))
}

fn has_address(place: &Option<NodeEntry>, address: &str) -> bool
    ensures { result ≡ has_address address.now place.now }
{
    match place {
        Some(entry) => is_text(&entry.address, address),
        None => false,
    }
}

fn is_text(said: &Option<String>, text: &str) -> bool
    ensures { result ≡ is_text text.now (option_map string_bytes said.now) }
{
    match said {
        Some(said) => said.as_str() == text,
        None => false,
    }
}

/// The node of a table with this address, if it has one.
fn entry(
    alloc: Global,
    table: &Section<'_>,
    retired: bool,
    address: Option<&str>,
) -> Result<NodeEntry, ConfigFault>
    ensures { Gives result (entry_with (section_of table.now) retired (option_map (λ s. s.now) address.entry)) }
{
    let listen = listen(table, address)?;
    let area = node_area(table)?;
    let name = name(table)?;
    Ok(NodeEntry {
        retired,
        address: owned(alloc, address)?,
        listen: owned(alloc, listen)?,
        area,
        name: owned(alloc, name)?,
    })
}

/// A text of its own, where there is one.
fn owned(alloc: Global, text: Option<&str>) -> Result<Option<String>, Memory>
    ensures { IfOk result (λ own. option_map string_bytes own ≡ option_map (λ s. s.now) text.entry) }
{
    match text {
        Some(text) => Ok(Some(String::from_str(alloc, text)?)),
        None => Ok(None),
    }
}

/// Whether a node is retired; no where its table does not tell.
fn retired(table: &Section<'_>) -> Result<bool, ConfigFault>
    ensures { result ≡ retired_in (section_of table.now) }
{
    match table.value_at(ConfigKey::Retired) {
        None => Ok(false),
        Some(value) => retired_of(table, value).ok_or(table.refuses(ConfigKey::Retired)),
    }
}

/// Whether a node is retired, by a value: yes, where its table has no address, or no.
fn retired_of(table: &Section<'_>, value: &Value) -> Option<bool>
    ensures { result ≡ retired_of (section_of table.now) (view value.now) }
{
    let retired = value.as_bool()?;
    if retired && table.value_at(ConfigKey::Address).is_some() {
        return None;
    }
    Some(retired)
}

/// The address of a node, which a retired one does not have.
fn address_unless<'a>(retired: bool, table: &Section<'a>) -> Result<Option<&'a str>, ConfigFault>
    ensures { GivesBy (λ o. option_map (λ s. s.now) o) result (address_unless retired (section_of table.now)) }
{
    if retired {
        return Ok(None);
    }
    Ok(Some(address(table)?))
}

/// The address in a table.
fn address<'a>(table: &Section<'a>) -> Result<&'a str, ConfigFault>
    ensures { GivesBy (λ s. s.now) result (address_in (section_of table.now)) }
{
    match table.required(ConfigKey::Address)?.as_str() {
        Some(text) if is_reachable(text.as_bytes()) => Ok(text),
        _ => Err(table.refuses(ConfigKey::Address)),
    }
}

/// The address at which a node with this address, if it has one, listens.
fn listen<'a>(table: &Section<'a>, address: Option<&'a str>) -> Result<Option<&'a str>, ConfigFault>
    ensures { GivesBy (λ o. option_map (λ s. s.now) o) result (listen_in (section_of table.now) (option_map (λ s. s.now) address.entry)) }
{
    match table.value_at(ConfigKey::Listen) {
        None => Ok(address),
        Some(value) => match listen_of(value) {
            Some(text) => Ok(Some(text)),
            None => Err(table.refuses(ConfigKey::Listen)),
        },
    }
}

/// The address that a value is.
fn listen_of(value: &Value) -> Option<&str>
    ensures { option_map (λ s. s.now) result ≡ listen_of (view value.now) }
{
    match value.as_str() {
        Some(text) if is_address(text.as_bytes()) => Some(text),
        _ => None,
    }
}

/// The area of a node, which is 0 where its table has none.
fn node_area(table: &Section<'_>) -> Result<u8, ConfigFault>
    ensures { result ≡ node_area_in (section_of table.now) }
{
    Ok(table.area()?.unwrap_or(0))
}

/// The name of a node, if it has one.
fn name<'a>(table: &Section<'a>) -> Result<Option<&'a str>, ConfigFault>
    ensures { GivesBy (λ o. option_map (λ s. s.now) o) result (name_in (section_of table.now)) }
{
    match table.value_at(ConfigKey::Name) {
        None => Ok(None),
        Some(value) => match name_of(value) {
            Some(text) => Ok(Some(text)),
            None => Err(table.refuses(ConfigKey::Name)),
        },
    }
}

/// The name that a value is.
fn name_of(value: &Value) -> Option<&str>
    ensures { option_map (λ s. s.now) result ≡ name_of (view value.now) }
{
    match value.as_str() {
        Some(text) if is_name(text.as_bytes()) => Some(text),
        _ => None,
    }
}

/// The settings of all nodes, in one list for each field.
#[derive(Drop)]
pub(crate) struct Split {
    pub(crate) retired: Vec<bool>,
    pub(crate) addresses: Vec<Option<String>>,
    pub(crate) listens: Vec<Option<String>>,
    pub(crate) areas: Vec<u8>,
    pub(crate) names: Vec<Option<String>>,
}

impl Split {
    /// The settings of the nodes at the places, in their order.
    pub(crate) fn of(alloc: Global, places: Vec<Option<NodeEntry>>) -> Result<Split, Memory>
        ensures { IfOk result (λ s. AreOf s.retired.items s.addresses.items s.listens.items s.areas.items s.names.items places.items) }
    {
        let mut split = Split {
            retired: Vec::new(alloc),
            addresses: Vec::new(alloc),
            listens: Vec::new(alloc),
            areas: Vec::new(alloc),
            names: Vec::new(alloc),
        };
        for place in places {
            split.put(said_at(place))?;
        }
        Ok(split)
    }

    /// Puts the settings of a node after those of the nodes before it.
    fn put(&mut self, entry: NodeEntry) -> Result<(), Memory>
        ensures { (so_far : List (Option NodeSettings)) (place : Option NodeSettings) → said_at place ≡ entry
            → AreOf self.old.retired.items self.old.addresses.items self.old.listens.items self.old.areas.items self.old.names.items so_far
            → OnOk result (AreOf self.new.retired.items self.new.addresses.items self.new.listens.items self.new.areas.items self.new.names.items
            (so_far ++ place ∷ [])) }
    {
        self.retired.push(entry.retired)?;
        self.addresses.push(entry.address)?;
        self.listens.push(entry.listen)?;
        self.areas.push(entry.area)?;
        self.names.push(entry.name)?;
        Ok(())
    }
}

/// The settings of the node at a place, or those of a node that no table has.
fn said_at(place: Option<NodeEntry>) -> NodeEntry
    ensures { result ≡ said_at place }
{
    match place {
        Some(entry) => entry,
        None => NodeEntry {
            retired: false,
            address: None,
            listen: None,
            area: 0,
            name: None,
        },
    }
}
