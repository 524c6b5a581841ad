ghost use Rattle.std.specs.Prelude.{◌≡◌, option_map};

use std::marker::Model;

/// The options of a client's requests. Contracts see the record of the same name in
/// `specs/FetchOptions`.
#[derive(Drop)]
pub struct FetchOptions<'a> {
    /// The first byte of a group to ask for; `None` leaves it to the URL.
    pub from: Option<u64>,
    /// The token that each request shows as a bearer token (RFC 6750, section 2.1): printable ASCII
    /// bytes without a space.
    pub token: Option<&'a str>,
}

impl<'a> Model for FetchOptions<'a> {
    ghost use Rattle.std.specs.Prelude.{option_map};
    ghost use Rattle.oc_client.specs.FetchOptions.{FetchOptions as Asked};

    ghost Value = { Asked };

    ghost view = { λ m. record { from = m.from; token = option_map (λ t. t.now) m.token } };
}

impl<'a> FetchOptions<'a> {
    /// The first byte to ask for, unless it is left to the URL.
    pub(crate) fn first_byte(&self) -> Option<u64>
        ensures { result ≡ self.now.from }
    {
        self.from
    }

    /// The token that each request shows.
    pub(crate) fn shown_token(&self) -> Option<&'a str>
        ensures { option_map (λ t. t.now) result ≡ self.now.token }
    {
        self.token
    }
}
