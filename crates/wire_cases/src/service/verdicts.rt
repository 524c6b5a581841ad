//! The verdicts of a configuration's access rules on requests.

use crate::service::texts::text_in;
use oc_base::GroupName;
use oc_config::read;
use oc_policy::{Action, Decision, MAX_RULES, Rule, decide};
use std::alloc::Global;
use test_tools::{Fault, RowFields, group_in};

/// Puts the words of a row: the verdict.
pub fn put_words(alloc: Global, given: &str, said: &mut String) -> Result<(), Fault> {
    let (request, text) = given.split_once('|').ok_or(Fault::Field)?;
    let mut fields = RowFields::of(request, ' ');
    let action = match fields.text() {
        "get" => Action::Get,
        "post" => Action::Post,
        _ => return Err(Fault::Field),
    };
    let group = some_group(fields.text())?;
    let area = fields.byte()?;
    let shown = shown_in(alloc, fields.text())?;
    let shown = shown.as_ref().map(|bytes| bytes.as_slice());
    match read(alloc, &text_in(alloc, text.trim())?) {
        Ok(config) => put_verdict(&config.rules, action, group.as_ref(), area, shown, said),
        Err(_) => Err(Fault::Unready),
    }
}

/// The group of a request; none for `!`, the pages of a node.
fn some_group(text: &str) -> Result<Option<GroupName>, Fault> {
    match text {
        "!" => Ok(None),
        _ => Ok(Some(group_in(text)?)),
    }
}

/// The value of an Authorization field, in which `_` is written for a space; none for an empty
/// text.
fn shown_in(alloc: Global, text: &str) -> Result<Option<Vec<u8>>, Fault> {
    if text.is_empty() {
        return Ok(None);
    }
    let mut value = Vec::new(alloc);
    for byte in text.bytes() {
        value.push(if byte == b'_' { b' ' } else { byte })?;
    }
    Ok(Some(value))
}

/// Appends the verdict of rules on a request.
fn put_verdict<'a>(
    rules: &'a [Rule],
    action: Action,
    group: Option<&'a GroupName>,
    area: u8,
    shown: Option<&'a [u8]>,
    said: &mut String,
) -> Result<(), Fault> {
    if rules.len() > MAX_RULES {
        return Err(Fault::Unready);
    }
    match decide(rules, action, group, area, shown) {
        Decision::Allowed => Ok(said.push_str("allowed")?),
        Decision::Denied(rule) => Ok(write!(said, "denied {rule}")?),
    }
}
