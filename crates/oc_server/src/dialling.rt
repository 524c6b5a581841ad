//! Dials that begin.

ghost use Rattle.std.specs.Prelude.{◌≡◌, ◌<◌, ◌∷◌, ◌++◌, [], OnErr, OnOk, IfOk, length};
ghost use Rattle.oc_link.specs.Told.{AddsAll};
ghost use Rattle.oc_link.specs.declared.call.Call.TheVariants as acts;
ghost use Rattle.oc_http.specs.Writing.{IsHost};
ghost use Rattle.oc_model.specs.declared.message.Message.{Message};
ghost use Rattle.oc_routes.specs.Responses.{address_of};
ghost use Rattle.oc_wire.specs.Spelling.{HasSpelling};
ghost use Rattle.oc_config.specs.Settings.{key_of};
ghost use Rattle.oc_deeds.specs.Deeds.{dial_text};
ghost use Rattle.oc_deeds.specs.Dials.{brings, dialling};

use oc_base::{Memory, NodeId};
use oc_config::Config;
use oc_deeds::{Dials, Errand, is_fetch};
use oc_link::{DialId, Link};
use oc_model::Message;
use oc_wire::to_http;
use std::alloc::Global;

/// The text of a dial: the request that brings a message to its receiver, and nothing where that has no address.
pub(crate) fn request_to(
    alloc: Global,
    config: &Config,
    message: &Message,
) -> Result<Vec<u8>, Memory>
    requires body { HasSpelling message.now.body }
    requires host { 0 < length (address_of config.now.addresses message.now.to) → IsHost (address_of config.now.addresses message.now.to) }
    ensures { IfOk result (λ text. text.items ≡ dial_text (key_of config.now.keys) (address_of config.now.addresses message.now.to) message.now) }
{
    let address = address_of(config, message.to);
    if address.is_empty() {
        return Ok(Vec::new(alloc));
    }
    to_http(alloc, message, address, config.key())
}

/// Begins the dial of a message to this address, with this request.
pub(crate) fn begin_dial<L: Link>(
    link: &mut L,
    dials: &mut Dials,
    address: &str,
    message: &Message,
    dial: DialId,
    text: &[u8],
) -> Result<(), Memory>
    ensures begun { OnOk result (dials.new ≡ dials.old ++ dialling dial (brings message.now) ∷ []) }
    ensures calls { OnOk result (AddsAll (acts.Dial dial address.now text.now ∷ []) (L.story link.old) (L.story link.new)) }
    ensures fails { OnErr result (L.story link.new ≡ L.story link.old) }
    ensures counts { L.counts link.new ≡ L.counts link.old }
{
    let errand = Errand::Message {
        to: message.to,
        fetch: is_fetch(&message.body),
    };
    dials.begin(dial, errand)?;
    link.dial(dial, address, text);
    Ok(())
}

/// The address of a node.
pub(crate) fn address_of(config: &Config, node: NodeId) -> &str
    ensures { result.now ≡ address_of config.now.addresses node }
{
    oc_routes::address_of(&config.addresses, node)
}
