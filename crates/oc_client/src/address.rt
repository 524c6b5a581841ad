//! Parsing of a text into a URL that a client can ask.

ghost use Rattle.std.specs.Prelude.{◌≡◌, true, IfOk, IsErrOf};
ghost use Rattle.oc_client.specs.Addresses.{is_good, IsAddressOf, IsBadAddress, LeadsTo, LeadsNowhere};
ghost use Rattle.oc_client.specs.declared.address.UrlFault.TheVariants.{Bad};
ghost use Rattle.url.specs.Parser.{Gives, Parsed};
ghost use Rattle.url.specs.Parts.{Parts, has_credentials};

use std::alloc::Global;
use std::str;
use url::{ParseError, ParseResult, Url};

/// The reason why a text gives no URL that can be asked.
#[derive(Clone, Copy, Debug, PartialEq, Eq)]
pub(crate) enum UrlFault {
    /// The text is no URL, its scheme is not `http`, the host is missing, or a user or a password
    /// is given.
    Bad,
    /// Memory ran out, or the URL would have 4 GB.
    Memory,
}

/// Parses an address into a URL.
pub(crate) fn read_address(alloc: Global, address: &str) -> Result<Url, UrlFault>
    ensures good { IfOk result (λ url. IsAddressOf address.now url) }
    ensures bad { IsErrOf result UrlFault.Bad → IsBadAddress address.now }
{
    checked(Url::parse(alloc, address))
}

/// The URL to which a Location leads, joined to the URL that was asked (RFC 9110, section 10.2.2).
pub(crate) fn read_location(asked: &Url, location: &[u8]) -> Result<Url, UrlFault>
    ensures good { IfOk result (λ url. LeadsTo asked.now location.now url) }
    ensures bad { IsErrOf result UrlFault.Bad → LeadsNowhere asked.now location.now }
{
    match str::from_utf8(location) {
        Ok(location) => checked(asked.join(location)),
        Err(_) => Err(UrlFault::Bad),
    }
}

/// The URL that was parsed, if a client can ask it.
fn checked(read: ParseResult<Url>) -> Result<Url, UrlFault>
    ensures good { IfOk result (λ url. (read ≡ Ok url) × (is_good url ≡ true)) }
    ensures bad { IsErrOf result UrlFault.Bad → (said : Parsed Parts) → Gives read said → (url : Parts) → said ≡ Ok url → ¬ (is_good url ≡ true) }
{
    match read {
        Ok(url) if can_be_asked(&url) => Ok(url),
        Ok(_) => Err(UrlFault::Bad),
        Err(ParseError::OutOfMemory | ParseError::Overflow) => Err(UrlFault::Memory),
        Err(_) => Err(UrlFault::Bad),
    }
}

/// Whether the scheme is `http`, a host is given, and no user and no password.
fn can_be_asked(url: &Url) -> bool
    ensures { result ≡ is_good url.now }
{
    url.scheme() == "http" && url.has_host() && !has_credentials(url)
}

/// Whether the URL has a user or a password.
fn has_credentials(url: &Url) -> bool
    ensures { result ≡ has_credentials url.now }
{
    !url.username().is_empty() || url.password().is_some()
}
