//! A GET or HEAD of `/!probe`: the content by which rates are measured.

ghost use Rattle.std.specs.Prelude.{◌≡◌, ◌++◌, IfOk, OnOk};
ghost use Rattle.oc_routes.specs.Probe.{copies, probe_body, probe_response};

use crate::connections::connection_for;
use crate::manner::Manner;
use crate::response::Response;
use crate::responses::typed_head;
use oc_base::{Memory, Text};
use oc_http::Framing;
use oc_probe::PROBE_BYTES;
use std::alloc::Global;

/// Gives the content by which rates are measured.
pub(super) fn to_probe(alloc: Global, manner: Manner, last: bool) -> Result<Response, Memory>
    ensures { IfOk result (λ response. response ≡ probe_response manner last) }
{
    let connection = connection_for(last);
    let mut text = typed_head(alloc, Framing::Length(PROBE_BYTES), connection)?;
    put_probe_body(&mut text, manner)?;
    Ok(Response {
        text: Text::of(text),
        content: None,
        connection,
    })
}

/// Puts the content by which rates are measured, except for a HEAD.
fn put_probe_body(text: &mut Vec<u8>, manner: Manner) -> Result<(), Memory>
    ensures { OnOk result (text.new.items ≡ text.old.items ++ probe_body manner) }
{
    match manner {
        Manner::HeadAlone => Ok(()),
        Manner::Once | Manner::Follow => put_copies(text, PROBE_BYTES as usize, b'x'),
    }
}

/// Puts a byte `count` times.
#[tactic(auto, unfolding(crate::specs::Probe::copies))]
fn put_copies(text: &mut Vec<u8>, count: usize, byte: u8) -> Result<(), Memory>
    ensures { OnOk result (text.new.items ≡ text.old.items ++ copies count byte) }
{
    let end = text.len().checked_add(count).ok_or(Memory)?;
    text.resize(end, byte)?;
    Ok(())
}
