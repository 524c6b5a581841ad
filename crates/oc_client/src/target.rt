//! A URL to ask, with the texts for its requests.

ghost use Rattle.std.specs.Prelude.{◌≡◌, ◌++◌, codes, decimal, string_bytes, true, IfOk, option_map, unwrap_or};
ghost use Rattle.oc_client.specs.Addresses.{is_good, host_name, host_of, dial_address};

use oc_base::Memory;
use std::alloc::Global;
use std::marker::Model;
use url::Url;

/// A URL to ask. Contracts see only the URL.
#[derive(Drop)]
pub(crate) struct Target {
    url: Url,
    address: String,
    host: String,
}

impl Model for Target {
    ghost use Rattle.std.specs.Prelude.{◌≡◌, string_bytes};
    ghost use Rattle.oc_client.specs.Addresses.{host_of, dial_address};
    ghost use Rattle.url.specs.Parts.{Parts};

    ghost Value = { Parts };

    ghost view = { λ t. t.url };

    ghost invariant = { λ t. (string_bytes t.address ≡ dial_address t.url) × (string_bytes t.host ≡ host_of t.url) };
}

impl Target {
    pub(crate) fn new(alloc: Global, url: Url) -> Result<Target, Memory>
        ensures { IfOk result (λ target. target ≡ url) }
    {
        let address = dial_address(alloc, &url)?;
        let host = host_of(alloc, &url)?;
        Ok(Target { url, address, host })
    }

    pub(crate) fn url(&self) -> &Url
        ensures { result.now ≡ self.now }
    {
        &self.url
    }

    /// The address to dial: the host, and the port or 80.
    pub(crate) fn address(&self) -> &str
        ensures { result.now ≡ dial_address self.now }
    {
        self.address.as_str()
    }

    /// The Host field of a request for the URL.
    pub(crate) fn host(&self) -> &str
        ensures { result.now ≡ host_of self.now }
    {
        self.host.as_str()
    }
}

fn dial_address(alloc: Global, url: &Url) -> Result<String, Memory>
    ensures { IfOk result (λ text. string_bytes text ≡ dial_address url.now) }
{
    let host = host_name(url);
    let port = url.port().unwrap_or(80);
    Ok(format!(in alloc; "{host}:{port}")?)
}

fn host_of(alloc: Global, url: &Url) -> Result<String, Memory>
    ensures { IfOk result (λ text. string_bytes text ≡ host_of url.now) }
{
    let host = host_name(url);
    match url.port() {
        Some(port) => Ok(format!(in alloc; "{host}:{port}")?),
        None => Ok(String::from_str(alloc, host)?),
    }
}

fn host_name(url: &Url) -> &str
    ensures { result.now ≡ host_name url.now }
{
    url.host_str().unwrap_or("")
}
