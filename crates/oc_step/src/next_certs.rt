ghost use Rattle.std.specs.Prelude.{◌≡◌, ◌≤◌, [], ◌∷◌, ◌++◌, vec_len, take, OnOk};
ghost use Rattle.std.specs.List.{list_any};
ghost use Rattle.std.specs.Option.{option_to_list};
ghost use Rattle.oc_base.specs.declared.limits.TheConstants.{MAX_CHECK_IN_CERTS};
ghost use Rattle.oc_model.specs.ChangeLog.{waits};
ghost use Rattle.oc_step.specs.Since.{certs_of, certs_in};

use oc_base::{Cert, MAX_CHECK_IN_CERTS, Memory};
use oc_model::Record;
use oc_updown::ChangeLog;

/// The certificate of a record, if it has one.
fn cert_of(change: &Record) -> Option<Cert>
    ensures { option_to_list result ≡ certs_of change.now }
{
    match change {
        Record::Entry { cert } => Some(*cert),
        _ => None,
    }
}

/// Adds a certificate at the end, if there is one and a check-in has room for more.
fn push_cert(certs: &mut Vec<Cert>, cert: Option<Cert>) -> Result<(), Memory>
    requires { vec_len certs.old ≤ MAX_CHECK_IN_CERTS }
    ensures certs { OnOk result (certs.new.items ≡ take MAX_CHECK_IN_CERTS (certs.old.items ++ option_to_list cert)) }
    ensures few { vec_len certs.new ≤ MAX_CHECK_IN_CERTS }
{
    if certs.len() == MAX_CHECK_IN_CERTS {
        return Ok(());
    }
    if let Some(cert) = cert {
        certs.push(cert)?;
    }
    Ok(())
}

/// Adds the certificates of these records at the end, up to the limit of a check-in.
pub(crate) fn push_certs(certs: &mut Vec<Cert>, records: &[Record]) -> Result<(), Memory>
    requires { vec_len certs.old ≤ MAX_CHECK_IN_CERTS }
    ensures certs { OnOk result (certs.new.items ≡ take MAX_CHECK_IN_CERTS (certs.old.items ++ certs_in records.now)) }
    ensures few { OnOk result (vec_len certs.new ≤ MAX_CHECK_IN_CERTS) }
{
    for change in records {
        push_cert(certs, cert_of(change))?;
    }
    Ok(())
}

/// Whether a record has a certificate.
fn has_cert(change: &Record) -> bool
    ensures { result ≡ waits (certs_of change.now) }
{
    matches!(change, Record::Entry { .. })
}

/// Whether any of these records has a certificate.
pub(crate) fn have_certs(records: &[Record]) -> bool
    ensures { result ≡ list_any (λ r. waits (certs_of r)) records.now }
{
    records.iter().any(|change| has_cert(change))
}

/// Whether a log has waiting certificates.
#[tactic(auto, using(crate::proofs::NextCerts::waits_length))]
pub(crate) fn has_waiting(log: &ChangeLog) -> bool
    ensures { result ≡ waits log.now.log.waiting }
{
    log.acked() < log.length()
}
