//! Lists in brackets, appended to a buffer.

ghost use Rattle.std.specs.Prelude.{◌≡◌, ℕ, List, [], ◌++◌, OnOk, decimal};
ghost use Rattle.oc_replay.specs.Bodies.{cert_text, child_text, count_text, list_text, pair_text, sign_text, spaced};
ghost use Rattle.oc_replay.specs.Shows.{listed_text};

use crate::texts::{put_byte, put_byte_number, put_mark};
use oc_base::{Cert, Child, Line, Memory, NodeId, Shelf, put, put_number, put_with_number};

/// An item of a list.
pub(crate) trait ListItem {
    /// The text of the item.
    ghost text: { Self → List ℕ };

    /// Appends the text of the item.
    fn put(&self, out: &mut Vec<u8>) -> Result<(), Memory>
        ensures { OnOk result (out.new.items ≡ out.old.items ++ text self.now) };
}

/// Appends a list in brackets, with a space between items.
pub(crate) fn put_list<I: ListItem>(out: &mut Vec<u8>, items: &[I]) -> Result<(), Memory>
    ensures { OnOk result (out.new.items ≡ out.old.items ++ list_text I.text items.now) }
{
    put_byte(out, b'[')?;
    put_spaced(out, items)?;
    put_byte(out, b']')
}

/// Appends the items, with a space between them.
fn put_spaced<I: ListItem>(out: &mut Vec<u8>, items: &[I]) -> Result<(), Memory>
    ensures { OnOk result (out.new.items ≡ out.old.items ++ spaced I.text items.now) }
{
    let Some((first, rest)) = items.split_first() else {
        return Ok(());
    };
    first.put(out)?;
    for item in rest {
        put_byte(out, b' ')?;
        item.put(out)?;
    }
    Ok(())
}

impl ListItem for NodeId {
    ghost text = { decimal };

    fn put(&self, out: &mut Vec<u8>) -> Result<(), Memory> {
        put_number(out, u64::from(self.0))
    }
}

impl ListItem for Shelf {
    ghost text = { pair_text };

    fn put(&self, out: &mut Vec<u8>) -> Result<(), Memory> {
        put(out, self.group.bytes())?;
        put_byte_number(out, b'@', self.held)?;
        put_mark(out, self.sealed, "!")
    }
}

impl ListItem for Child {
    ghost text = { child_text };

    fn put(&self, out: &mut Vec<u8>) -> Result<(), Memory> {
        put_number(out, u64::from(self.id.0))?;
        put_byte_number(out, b':', self.rate)
    }
}

impl ListItem for Cert {
    ghost text = { cert_text };

    fn put(&self, out: &mut Vec<u8>) -> Result<(), Memory> {
        put_number(out, u64::from(self.subject.0))?;
        put_byte_number(out, b'/', self.seq)?;
        put_byte_number(out, b'/', u64::from(self.parent.0))?;
        put(out, sign(self.dead).as_bytes())?;
        put_count(out, "", self.number, self.clients)
    }
}

impl ListItem for Line {
    ghost text = { listed_text };

    fn put(&self, out: &mut Vec<u8>) -> Result<(), Memory> {
        put_number(out, u64::from(self.node.0))?;
        put_byte_number(out, b'<', u64::from(self.parent.0))
    }
}

/// The sign of a certificate.
fn sign(dead: bool) -> &'static str
    ensures { result.now ≡ sign_text dead }
{
    if dead { "-" } else { "+" }
}

/// Appends the text `before` and `n:c`, a number and a count of clients, unless the number is 0.
pub(crate) fn put_count(
    out: &mut Vec<u8>,
    before: &str,
    number: u64,
    clients: u64,
) -> Result<(), Memory>
    ensures { OnOk result (out.new.items ≡ out.old.items ++ count_text before.now number clients) }
{
    if number != 0 {
        put_with_number(out, before.as_bytes(), number)?;
        put_byte_number(out, b':', clients)?;
    }
    Ok(())
}
