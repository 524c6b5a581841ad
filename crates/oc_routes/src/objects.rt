//! The items of the arrays of a status.

ghost use Rattle.std.specs.Prelude.{◌≡◌, ◌++◌, not, OnOk};
ghost use Rattle.oc_routes.specs.Json.{number_text, or_null, quoted};
ghost use Rattle.oc_routes.specs.Sights.{name_of, sight_of};
ghost use Rattle.oc_routes.specs.Status.{cert_text, child_text, group_text, known_text, missing_text, own_text, row_text};

use crate::arrays::ArrayItem;
use crate::json::{put_exact, put_field, put_flag, put_number_or_null, put_quoted};
use crate::leased::Leased;
use crate::rows::Row;
use crate::seen::Seen;
use crate::sights::{MissingNode, name_of, silence_of};
use oc_base::{Cert, Memory, NodeId, Shelf, put};

impl ArrayItem for NodeId {
    ghost text = { λ s. number_text };

    fn put(&self, out: &mut Vec<u8>, _seen: &Seen<'_>) -> Result<(), Memory> {
        put_exact(out, u64::from(self.0))
    }
}

impl ArrayItem for Shelf {
    ghost text = { λ s. group_text };

    fn put(&self, out: &mut Vec<u8>, _seen: &Seen<'_>) -> Result<(), Memory> {
        put(out, b"{\"name\":")?;
        put_quoted(out, self.group.bytes())?;
        put_field(out, ",\"bytes\":", self.held)?;
        put_flag(out, ",\"sealed\":", self.sealed)?;
        put(out, b"}")
    }
}

impl ArrayItem for Row {
    ghost text = { row_text };

    fn put(&self, out: &mut Vec<u8>, seen: &Seen<'_>) -> Result<(), Memory> {
        put_cert(out, &self.cert)?;
        put_own(out, &self.cert)?;
        put_known(out, seen, self.cert.subject)?;
        put_flag(out, ",\"listed\":", self.listed)?;
        put(out, b"}")
    }
}

impl ArrayItem for Leased {
    ghost text = { λ s. child_text };

    fn put(&self, out: &mut Vec<u8>, _seen: &Seen<'_>) -> Result<(), Memory> {
        put_field(out, "{\"node\":", u64::from(self.child.id.0))?;
        put(out, b",\"lease\":")?;
        put_number_or_null(out, self.lease)?;
        put_field(out, ",\"rate\":", self.child.rate)?;
        put(out, b"}")
    }
}

impl ArrayItem for MissingNode {
    ghost text = { missing_text };

    fn put(&self, out: &mut Vec<u8>, seen: &Seen<'_>) -> Result<(), Memory> {
        put_field(out, "{\"node\":", u64::from(self.0.0))?;
        put_name(out, ",\"name\":", seen, self.0)?;
        put(out, b"}")
    }
}

/// Puts the name of a node, and the seconds since it was heard of.
fn put_known(out: &mut Vec<u8>, seen: &Seen<'_>, node: NodeId) -> Result<(), Memory>
    ensures { OnOk result (out.new.items ≡ out.old.items ++ known_text (sight_of seen.now) node) }
{
    put_name(out, ",\"name\":", seen, node)?;
    put(out, b",\"heard\":")?;
    put_number_or_null(out, silence_of(seen, node))
}

/// Puts a text, and after it the name of a node, or `null` where it has none.
pub(crate) fn put_name(
    out: &mut Vec<u8>,
    key: &str,
    seen: &Seen<'_>,
    node: NodeId,
) -> Result<(), Memory>
    ensures { OnOk result (out.new.items ≡ out.old.items ++ key.now ++ or_null quoted (name_of (sight_of seen.now) node)) }
{
    put(out, key.as_bytes())?;
    match name_of(seen, node) {
        Some(name) => put_quoted(out, name.as_bytes()),
        None => put(out, b"null"),
    }
}

/// Puts the part of a certificate about its node.
#[tactic(auto, unfolding(crate::specs::Status::cert_text))]
fn put_cert(out: &mut Vec<u8>, cert: &Cert) -> Result<(), Memory>
    ensures { OnOk result (out.new.items ≡ out.old.items ++ cert_text cert.now) }
{
    put_field(out, "{\"node\":", u64::from(cert.subject.0))?;
    put_field(out, ",\"parent\":", u64::from(cert.parent.0))?;
    put_field(out, ",\"seq\":", cert.seq)?;
    put_flag(out, ",\"up\":", !cert.dead)
}

/// Puts the part of a certificate that its node told.
#[tactic(auto, unfolding(crate::specs::Status::own_text))]
fn put_own(out: &mut Vec<u8>, cert: &Cert) -> Result<(), Memory>
    ensures { OnOk result (out.new.items ≡ out.old.items ++ own_text cert.now) }
{
    put_field(out, ",\"number\":", cert.number)?;
    put_field(out, ",\"clients\":", cert.clients)
}
