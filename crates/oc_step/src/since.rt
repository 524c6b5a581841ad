ghost use Rattle.std.specs.Prelude.{◌≡◌, IfSome};
ghost use Rattle.oc_model.specs.Table.{is_news_to};
ghost use Rattle.oc_step.specs.Since.{ancestors_by, ancestors_over, entry_with, entry_by, entry_over};

use oc_base::{Cert, NodeId};
use oc_model::Record;

/// The ancestors after these records, from those before.
pub(crate) fn ancestors_since<'a>(before: &'a [NodeId], records: &'a [Record]) -> &'a [NodeId]
    ensures { result.now ≡ ancestors_over before.now records.now }
{
    let mut last = before;
    for change in records {
        last = ancestors_by(last, change);
    }
    last
}

/// The ancestors after one record.
fn ancestors_by<'a>(before: &'a [NodeId], change: &'a Record) -> &'a [NodeId]
    ensures { result.now ≡ ancestors_by before.now change.now }
{
    match change {
        Record::Ancestors { ids } => ids.items(),
        Record::Acting | Record::Snapshot { .. } => &[],
        _ => before,
    }
}

/// The entry of a node after these records, from the one before.
pub(crate) fn entry_since(before: Option<Cert>, subject: NodeId, records: &[Record]) -> Option<Cert>
    requires { IfSome before (λ entry. entry.subject ≡ subject) }
    ensures entry { result ≡ entry_over subject before records.now }
    ensures fits { IfSome result (λ entry. entry.subject ≡ subject) }
{
    let mut last = before;
    for change in records {
        last = entry_by(last, subject, change);
    }
    last
}

/// The entry of a node after one record.
fn entry_by(before: Option<Cert>, subject: NodeId, change: &Record) -> Option<Cert>
    requires { IfSome before (λ entry. entry.subject ≡ subject) }
    ensures entry { result ≡ entry_by subject before change.now }
    ensures fits { IfSome result (λ entry. entry.subject ≡ subject) }
{
    match change {
        Record::Entry { cert } => entry_with(before, subject, cert),
        Record::OldEntry {
            subject: of,
            seq,
            parent,
            dead,
        } => entry_with(
            before,
            subject,
            &Cert {
                subject: *of,
                seq: *seq,
                parent: *parent,
                dead: *dead,
                number: 0,
                clients: 0,
            },
        ),
        Record::Snapshot { .. } => None,
        _ => before,
    }
}

/// The entry of a node after a certificate.
fn entry_with(before: Option<Cert>, subject: NodeId, cert: &Cert) -> Option<Cert>
    requires { IfSome before (λ entry. entry.subject ≡ subject) }
    ensures entry { result ≡ entry_with subject before cert.now }
    ensures fits { IfSome result (λ entry. entry.subject ≡ subject) }
{
    if cert.subject == subject && is_news_to(&before, cert) {
        Some(*cert)
    } else {
        before
    }
}

/// Whether a certificate is news: there is no entry of its subject, or the certificate outranks it.
pub(crate) fn is_news_to(entry: &Option<Cert>, cert: &Cert) -> bool
    requires { IfSome entry.now (λ entry. entry.subject ≡ cert.now.subject) }
    ensures { result ≡ is_news_to entry.now cert.now }
{
    match entry {
        Some(entry) => cert.outranks(entry),
        None => true,
    }
}
