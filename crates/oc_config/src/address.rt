ghost use Rattle.std.specs.Prelude.{◌≡◌, is_some};
ghost use Rattle.std.specs.List.{list_all};
ghost use Rattle.std.specs.Net.Reader.{read_ipv6, whole_value};
ghost use Rattle.oc_config.specs.Addresses.{is_address, is_after_host, is_bracketed, is_closed, is_everywhere, is_hostname, is_hostname_byte, is_ipv6, is_ipv6_byte, is_named, is_port, is_reachable};

use oc_base::cut_at_first;
use oc_base::words::number;
use std::net::Ipv6Addr;

/// The greatest number of bytes of an address.
const MAX_ADDRESS_BYTES: usize = 255;

/// Whether a text is an address at which others can reach a node: one whose host is neither `0.0.0.0` nor `[::]`.
pub(crate) fn is_reachable(text: &[u8]) -> bool
    ensures { result ≡ is_reachable text.now }
{
    is_address(text) && !is_everywhere(text)
}

/// Whether a text is an address: a host of letters, digits, `.` and `-`, or an address of IPv6 in brackets, then `:`
/// and a port.
pub(crate) fn is_address(text: &[u8]) -> bool
    ensures { result ≡ is_address text.now }
{
    text.len() <= MAX_ADDRESS_BYTES && (is_named(text) || is_bracketed(text))
}

/// Whether the host of an address is all addresses of a machine.
fn is_everywhere(text: &[u8]) -> bool
    ensures { result ≡ is_everywhere text.now }
{
    text.starts_with(b"0.0.0.0:") || text.starts_with(b"[::]:")
}

/// Whether a text is a host name, `:` and a port.
fn is_named(text: &[u8]) -> bool
    ensures { result ≡ is_named text.now }
{
    let (host, port) = cut_at_first(text, b':');
    is_hostname(host) && is_port(port)
}

/// Whether a text is an address of IPv6 in brackets, `:` and a port.
fn is_bracketed(text: &[u8]) -> bool
    ensures { result ≡ is_bracketed text.now }
{
    match text {
        [b'[', rest @ ..] => is_closed(rest),
        _ => false,
    }
}

/// Whether a text is an address of IPv6, the bracket after it, `:` and a port.
fn is_closed(rest: &[u8]) -> bool
    ensures { result ≡ is_closed rest.now }
{
    let (host, behind) = cut_at_first(rest, b']');
    is_ipv6(host) && is_after_host(behind)
}

/// Whether a text is an address of IPv6, without a scope (RFC 4291, section 2.2).
fn is_ipv6(host: &[u8]) -> bool
    ensures { result ≡ is_ipv6 host.now }
{
    are_ipv6_bytes(host) && spells_ipv6(host)
}

fn are_ipv6_bytes(bytes: &[u8]) -> bool
    ensures { result ≡ list_all is_ipv6_byte bytes.now }
{
    bytes.iter().all(|b| is_ipv6_byte(*b))
}

fn spells_ipv6(host: &[u8]) -> bool
    ensures { result ≡ is_some (whole_value (read_ipv6 host.now)) }
{
    Ipv6Addr::parse_ascii(host).is_ok()
}

fn is_ipv6_byte(byte: u8) -> bool
    ensures { result ≡ is_ipv6_byte byte }
{
    byte.is_ascii_hexdigit() || byte == b':' || byte == b'.'
}

/// Whether a text is `:` and a port.
fn is_after_host(text: &[u8]) -> bool
    ensures { result ≡ is_after_host text.now }
{
    match text {
        [b':', port @ ..] => is_port(port),
        _ => false,
    }
}

fn is_hostname(host: &[u8]) -> bool
    ensures { result ≡ is_hostname host.now }
{
    !host.is_empty() && are_hostname_bytes(host)
}

fn are_hostname_bytes(bytes: &[u8]) -> bool
    ensures { result ≡ list_all is_hostname_byte bytes.now }
{
    bytes.iter().all(|b| is_hostname_byte(*b))
}

fn is_hostname_byte(byte: u8) -> bool
    ensures { result ≡ is_hostname_byte byte }
{
    matches!(byte, b'a'..=b'z' | b'A'..=b'Z' | b'0'..=b'9' | b'.' | b'-')
}

/// Whether a text spells a port.
fn is_port(text: &[u8]) -> bool
    ensures { result ≡ is_port text.now }
{
    number(text, 1, u64::from(u16::MAX)).is_ok()
}
