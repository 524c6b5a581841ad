//! MACs of texts, texts that are node keys, and who believes a MAC.

use crate::service::texts::bytes_in;
use oc_policy::{Key, Keyring, MAX_ACCEPTED, hmac_sha256, is_mac_in, is_mac_of, mac_of};
use std::alloc::Global;
use test_tools::{Fault, RowFields, put_hex, put_shown};

/// Appends the words of a row: a MAC, or the result of reading a text as a key.
pub fn put_words(alloc: Global, given: &str, said: &mut String) -> Result<(), Fault> {
    let mut fields = RowFields::of(given, ' ');
    let kind = fields.text();
    let key = bytes_in(alloc, fields.list())?;
    match kind {
        "hmac" => put_hex(said, &hmac_sha256(&key, &bytes_in(alloc, fields.list())?)),
        "mac" => put_mac(said, &key, &bytes_in(alloc, fields.list())?),
        "ring" => put_believed(alloc, said, &key, fields),
        "key" => put_shown(said, &Key::parse(&key)),
        _ => Err(Fault::Field),
    }
}

/// Puts the MAC of a text under the key that these bytes spell, and whether it is accepted.
fn put_mac(said: &mut String, key: &[u8], text: &[u8]) -> Result<(), Fault> {
    let Some(key) = Key::parse(key) else {
        return Err(Fault::Field);
    };
    let mac = mac_of(&key, text);
    for digit in mac.digits() {
        said.push(char::from(*digit))?;
    }
    if is_mac_of(&key, text, mac.digits()) {
        said.push_str(" accepted")?;
    }
    Ok(())
}

/// Puts whether the MAC of a text under the key that these bytes spell is believed by a node whose key comes next, and
/// which accepts those that come last.
fn put_believed(
    alloc: Global,
    said: &mut String,
    sender: &[u8],
    mut fields: RowFields<'_>,
) -> Result<(), Fault> {
    let sender = key_in(sender)?;
    let text = bytes_in(alloc, fields.list())?;
    let key = key_in(&bytes_in(alloc, fields.list())?)?;
    let mut accept = Vec::new(alloc);
    for _ in 0..MAX_ACCEPTED {
        if fields.is_empty() {
            break;
        }
        accept.push(key_in(&bytes_in(alloc, fields.list())?)?)?;
    }
    let ring = Keyring { key, accept };
    if is_mac_in(&ring, &text, mac_of(&sender, &text).digits()) {
        Ok(said.push_str("believed")?)
    } else {
        Ok(said.push_str("refused")?)
    }
}

/// The key that these bytes spell.
fn key_in(bytes: &[u8]) -> Result<Key, Fault> {
    Key::parse(bytes).ok_or(Fault::Field)
}
