ghost use Rattle.std.specs.Prelude.{◌≡◌, IfOk, string_bytes};
ghost use Rattle.oc_base.specs.Names.{IsGroupName};
ghost use Rattle.oc_updown.specs.Locations.{location_text, follow_location_text};

use oc_base::{GroupName, Memory};
use std::alloc::Global;
use std::str;

/// The Location of a redirection (RFC 9110, section 10.2.2) to the node at an address (a host with `:`
/// and a port), for a download of the group from byte `start` on.
pub fn location(
    alloc: Global,
    address: &str,
    group: &GroupName,
    start: u64,
) -> Result<String, Memory>
    requires { IsGroupName group.now }
    ensures { IfOk result (λ location. string_bytes location ≡ location_text address.now group.now start) }
{
    let name = text_of(group);
    if start == 0 {
        Ok(format!(in alloc; "http://{address}{name}")?)
    } else {
        Ok(format!(in alloc; "http://{address}{name}?start={start}")?)
    }
}

/// The Location of a redirection for a request that follows the group: as [`location`], and the client
/// follows the group at that node too.
pub fn follow_location(
    alloc: Global,
    address: &str,
    group: &GroupName,
    start: u64,
) -> Result<String, Memory>
    requires { IsGroupName group.now }
    ensures { IfOk result (λ location. string_bytes location ≡ follow_location_text address.now group.now start) }
{
    let name = text_of(group);
    if start == 0 {
        Ok(format!(in alloc; "http://{address}{name}?follow")?)
    } else {
        Ok(format!(in alloc; "http://{address}{name}?start={start}&follow")?)
    }
}

/// The text of a group's name.
fn text_of(group: &GroupName) -> &str
    requires { IsGroupName group.now }
    ensures { result.now ≡ group.now }
{
    match str::from_utf8(group.bytes()) {
        Ok(text) => text,
        Err(_) => unreachable!(),
    }
}
