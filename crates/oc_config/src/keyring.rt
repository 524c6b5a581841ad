//! The keys of a network.

ghost use Rattle.std.specs.Prelude.{◌≡◌, ◌≤◌, [], Some, IfOk, IfSome, length, vec_len};
ghost use Rattle.toml.specs.Data.{as_array};
ghost use Rattle.toml.specs.View.{view, items_view};
ghost use Rattle.oc_config.specs.Accepted.{accepted_in, accepted_of, keyring_in, keys_from, keys_in, node_key_in, node_key_of};
ghost use Rattle.oc_config.specs.Values.{Gives, GivesBy, read_as, section_of};
ghost use Rattle.oc_config.specs.declared.config_key.ConfigKey.TheVariants.{Accept};

use crate::config_key::ConfigKey;
use crate::fault::ConfigFault;
use crate::section::Section;
use oc_policy::{Key, Keyring, MAX_ACCEPTED};
use std::alloc::Global;
use toml::Value;

/// The keys of the network, if it has some.
pub(crate) fn keys(alloc: Global, top: &Section<'_>) -> Result<Option<Keyring>, ConfigFault>
    ensures said { Gives result (keys_in (section_of top.now)) }
    ensures count { IfOk result (λ keys. IfSome keys (λ ring. length ring.accept ≤ MAX_ACCEPTED)) }
{
    keyring(alloc, top, node_key(top)?)
}

/// The keys of a network whose first is this; without a key no others are accepted.
fn keyring(
    alloc: Global,
    top: &Section<'_>,
    key: Option<Key>,
) -> Result<Option<Keyring>, ConfigFault>
    ensures said { Gives result (keyring_in (section_of top.now) key) }
    ensures count { IfOk result (λ keys. IfSome keys (λ ring. length ring.accept ≤ MAX_ACCEPTED)) }
{
    match key {
        Some(key) => {
            let accept = accepted(alloc, top)?;
            Ok(Some(Keyring { key, accept }))
        }
        None => match top.value_at(ConfigKey::Accept) {
            Some(_) => Err(top.refuses(ConfigKey::Accept)),
            None => Ok(None),
        },
    }
}

/// The key of the nodes, if they have one.
fn node_key(top: &Section<'_>) -> Result<Option<Key>, ConfigFault>
    ensures { result ≡ node_key_in (section_of top.now) }
{
    match top.value_at(ConfigKey::NodeKey) {
        None => Ok(None),
        Some(value) => match spelled_key(value) {
            Some(key) => Ok(Some(key)),
            None => Err(top.refuses(ConfigKey::NodeKey)),
        },
    }
}

/// The keys that are accepted besides.
fn accepted(alloc: Global, top: &Section<'_>) -> Result<Vec<Key>, ConfigFault>
    ensures said { GivesBy (λ v. v.items) result (accepted_in (section_of top.now)) }
    ensures count { IfOk result (λ v. vec_len v ≤ MAX_ACCEPTED) }
{
    match top.value_at(ConfigKey::Accept) {
        None => Ok(Vec::new(alloc)),
        Some(value) => listed_keys(alloc, top, value),
    }
}

/// The keys that an array spells, a few of them at most.
fn listed_keys(alloc: Global, top: &Section<'_>, value: &Value) -> Result<Vec<Key>, ConfigFault>
    ensures said { GivesBy (λ v. v.items) result (accepted_of (section_of top.now) (as_array (view value.now))) }
    ensures count { IfOk result (λ v. vec_len v ≤ MAX_ACCEPTED) }
{
    match value.as_array() {
        Some(values) => counted_keys(alloc, top, values),
        None => Err(top.refuses(ConfigKey::Accept)),
    }
}

/// The keys that these values spell, which are a few at most.
fn counted_keys(alloc: Global, top: &Section<'_>, values: &[Value]) -> Result<Vec<Key>, ConfigFault>
    ensures said { GivesBy (λ v. v.items) result (accepted_of (section_of top.now) (Some (items_view values.now))) }
    ensures count { IfOk result (λ v. vec_len v ≤ MAX_ACCEPTED) }
{
    if MAX_ACCEPTED < values.len() {
        return Err(top.refuses(ConfigKey::Accept));
    }
    spelled_keys(alloc, top, values)
}

/// The keys that these values spell.
fn spelled_keys(alloc: Global, top: &Section<'_>, values: &[Value]) -> Result<Vec<Key>, ConfigFault>
    ensures said { GivesBy (λ v. v.items) result (keys_from (section_of top.now) [] (items_view values.now)) }
    ensures count { IfOk result (λ v. vec_len v ≡ length values.now) }
{
    let mut keys = Vec::new(alloc);
    for value in values {
        keys.push(accepted_key(top, value)?)?;
    }
    Ok(keys)
}

/// The key that a value of the accepted ones spells.
fn accepted_key(top: &Section<'_>, value: &Value) -> Result<Key, ConfigFault>
    ensures { result ≡ read_as Accept (section_of top.now) (node_key_of (view value.now)) }
{
    match spelled_key(value) {
        Some(key) => Ok(key),
        None => Err(top.refuses(ConfigKey::Accept)),
    }
}

/// The key that a value spells.
fn spelled_key(value: &Value) -> Option<Key>
    ensures { result ≡ node_key_of (view value.now) }
{
    Key::parse(value.as_str()?.as_bytes())
}
