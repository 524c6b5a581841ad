use crate::fault::Fault;
use crate::fields::RowFields;
use oc_base::Cert;

/// The certificate in a text such as `4/1/2+`, `4/1/2-` or `4/1/2+1:3`: its subject, the number of
/// the ask, the parent, `+` for alive or `-` for dead, and the node's own number and the count of
/// clients, which are 0 if they are left out.
pub fn cert_in(text: &str) -> Result<Cert, Fault> {
    match text.split_once('+') {
        Some((link, count)) => cert_of(link, false, count),
        None => match text.split_once('-') {
            Some((link, count)) => cert_of(link, true, count),
            None => Err(Fault::Field),
        },
    }
}

fn cert_of(link: &str, dead: bool, count: &str) -> Result<Cert, Fault> {
    let mut link = RowFields::of(link, '/');
    let (number, clients) = count_in(count)?;
    Ok(Cert {
        subject: link.node()?,
        seq: link.number()?,
        parent: link.node()?,
        dead,
        number,
        clients,
    })
}

/// The node's own number and the count of clients in a text such as `1:3`, or 0 and 0 if it is
/// empty.
fn count_in(text: &str) -> Result<(u64, u64), Fault> {
    if text.is_empty() {
        return Ok((0, 0));
    }
    let mut count = RowFields::of(text, ':');
    Ok((count.number()?, count.number()?))
}

/// Appends the text of a certificate.
pub fn put_cert(out: &mut String, cert: &Cert) -> Result<(), Fault> {
    let subject = cert.subject.0;
    let seq = cert.seq;
    let parent = cert.parent.0;
    let sign = if cert.dead { '-' } else { '+' };
    write!(out, "{subject}/{seq}/{parent}{sign}")?;
    if cert.number != 0 {
        let number = cert.number;
        let clients = cert.clients;
        write!(out, "{number}:{clients}")?;
    }
    Ok(())
}
