ghost use Rattle.std.specs.Prelude.{◌≡◌, ◌-◌, ◌≤◌, None, Some, IfSome, length};
ghost use Rattle.oc_model.specs.Table.{newest, parent_in, is_news, put};
ghost use Rattle.oc_updown.specs.TableView.{AreRows, entries_of};
ghost use Rattle.oc_base.specs.Lawful.{IsNode, IsCert};

use oc_base::{Cert, NodeId, Slots};

/// The certificate of a node, if there is one.
#[tactic(auto, using(crate::proofs::Entries::newest_zero))]
pub(crate) fn row_of(rows: &Slots<Option<Cert>>, node: NodeId) -> Option<Cert>
    requires { AreRows rows.now.items }
    ensures entry { result ≡ newest (entries_of rows.now.items) node }
    ensures fits { IfSome result (λ entry. (entry.subject ≡ node) × IsCert (length rows.now.items) entry) }
{
    match (node.0 as usize).checked_sub(1) {
        None => None,
        Some(place) => rows.get_or(place, None),
    }
}

/// The parent of a node whose certificate is alive.
pub(crate) fn parent_of(rows: &Slots<Option<Cert>>, node: NodeId) -> Option<NodeId>
    requires { AreRows rows.now.items }
    ensures parent { result ≡ parent_in (entries_of rows.now.items) node }
    ensures fits { IfSome result (λ parent. IsNode (length rows.now.items) parent) }
{
    match row_of(rows, node) {
        Some(cert) if !cert.dead => Some(cert.parent),
        _ => None,
    }
}

/// Whether a certificate is news: its subject has no row, or it outranks that row.
pub(crate) fn is_news(rows: &Slots<Option<Cert>>, cert: &Cert) -> bool
    requires { AreRows rows.now.items }
    ensures { result ≡ is_news (entries_of rows.now.items) cert.now }
{
    match row_of(rows, cert.subject) {
        Some(entry) => cert.outranks(&entry),
        None => true,
    }
}

/// Sets the row of the certificate's subject. There must be memory for the rows.
#[tactic(auto, using(crate::proofs::Entries::put_row, crate::proofs::Entries::set_fits, crate::proofs::Entries::put_found))]
pub(crate) fn put(rows: &mut Slots<Option<Cert>>, cert: &Cert)
    requires rows { AreRows rows.old.items }
    requires cert { IsCert (length rows.old.items) cert.now }
    requires room { length rows.old.items ≤ rows.old.room }
    ensures entries { entries_of rows.new.items ≡ put (entries_of rows.old.items) cert.now }
    ensures found { newest (entries_of rows.new.items) cert.now.subject ≡ Some cert.now }
    ensures rows { AreRows rows.new.items }
    ensures nodes { length rows.new.items ≡ length rows.old.items }
    ensures blank { rows.new.blank ≡ rows.old.blank }
    ensures room { rows.new.room ≡ rows.old.room }
{
    rows.put(cert.subject.index(), Some(*cert));
}
