ghost use Rattle.std.specs.Prelude.{◌≡◌, ◌≤◌, length, not, position, Some};
ghost use Rattle.oc_policy.specs.Tokens.{is_shown, is_token_byte, parsed_token, token_fault};
ghost use Rattle.oc_policy.specs.declared.token.TheConstants.{MAX_TOKEN_BYTES};

use crate::same::are_same;
use oc_base::put_in_front;
use std::fmt;
use std::marker::Model;

/// The greatest number of bytes of a token.
pub const MAX_TOKEN_BYTES: usize = 200;

/// The bytes before the token in the value of an Authorization field (RFC 6750, section 2.1).
const SCHEME: &[u8] = b"Bearer ";

/// A token that a request has to show: 1 to 200 bytes from 33 to 126. Contracts see the bytes.
///
/// The `Debug` of a token tells nothing of the bytes, and a token has no `Display` and no comparison.
#[derive(Clone, Copy)]
pub struct Token {
    bytes: [u8; MAX_TOKEN_BYTES],
    len: u8,
}

impl Model for Token {
    ghost use Rattle.std.specs.Prelude.{◌≡◌, ℕ, ◌-◌, ◌≤◌, List, ◌++◌, length, take, replicate};
    ghost use Rattle.oc_policy.specs.declared.token.TheConstants.{MAX_TOKEN_BYTES};
    ghost use Rattle.oc_policy.specs.Padding.{length_of_front, padded_again};

    ghost Value = { List ℕ };

    ghost view = { λ t. take t.len t.bytes };

    ghost invariant = { λ t. (t.len ≤ MAX_TOKEN_BYTES) × (length t.bytes ≡ MAX_TOKEN_BYTES)
        × (t.bytes ≡ take t.len t.bytes ++ replicate (MAX_TOKEN_BYTES - t.len) 0) };

    ghost inverse = { λ xs. record { bytes = xs ++ replicate (MAX_TOKEN_BYTES - length xs) 0; len = length xs } };

    ghost inverse_ok = { λ t h i. record {
      bytes = padded_again MAX_TOKEN_BYTES t.len t.bytes h.0 h.1 h.2 i;
      len = length_of_front MAX_TOKEN_BYTES t.len t.bytes h.0 h.1 i;
    } };
}

/// The fault of bytes that are no token.
#[derive(Clone, Copy, Debug, PartialEq, Eq)]
pub enum TokenFault {
    /// There are no bytes, or more than 200.
    Length,
    /// The byte at this place, counted from 0, may not occur in a token.
    Byte(usize),
}

impl Token {
    /// Reads a token, and takes no memory. The faults come in the order of [`TokenFault`].
    pub fn parse(bytes: &[u8]) -> Result<Token, TokenFault>
        ensures { result ≡ parsed_token bytes.now }
    {
        match fault_in(bytes) {
            Some(fault) => Err(fault),
            None => Ok(Token::padded(bytes)),
        }
    }

    /// Whether a request that has one Authorization field of this value shows the token: the value is `Bearer `, spelled
    /// in this way, and the token. All bytes of a token of this length are looked at, so that the time does not tell where
    /// they differ.
    pub(crate) fn is_in(&self, value: &[u8]) -> bool
        ensures { result ≡ is_shown (Some self.now) (Some value.now) }
    {
        match value.strip_prefix(SCHEME) {
            Some(shown) => are_same(shown, self.bytes()),
            None => false,
        }
    }

    /// The token's bytes.
    pub(crate) fn bytes(&self) -> &[u8]
        ensures { result.now ≡ self.now }
    {
        &self.bytes[..usize::from(self.len)]
    }

    fn padded(token: &[u8]) -> Token
        requires { length token.now ≤ MAX_TOKEN_BYTES }
        ensures { result ≡ token.now }
    {
        let mut bytes = [0; MAX_TOKEN_BYTES];
        put_in_front(&mut bytes, token);
        Token {
            bytes,
            len: token.len() as u8,
        }
    }
}

/// The first fault, in the order of [`TokenFault`].
fn fault_in(bytes: &[u8]) -> Option<TokenFault>
    ensures { result ≡ token_fault bytes.now }
{
    if bytes.is_empty() || bytes.len() > MAX_TOKEN_BYTES {
        return Some(TokenFault::Length);
    }
    match first_strange(bytes) {
        Some(at) => Some(TokenFault::Byte(at)),
        None => None,
    }
}

/// The place of the first byte that no token has.
fn first_strange(bytes: &[u8]) -> Option<usize>
    ensures { result ≡ position (λ b. not (is_token_byte b)) bytes.now }
{
    bytes.iter().position(|b| !may_stand(*b))
}

/// Whether a token may have this byte.
fn may_stand(byte: u8) -> bool
    ensures { result ≡ is_token_byte byte }
{
    matches!(byte, b'!'..=b'~')
}

impl fmt::Debug for Token {
    ghost use Rattle.std.specs.Prelude.{codes, Some};

    // The output is the same for each token.
    ghost debug_output = { λ _. Some (codes "Token(..)") };

    fn fmt<W: fmt::Write>(&self, f: &mut fmt::Formatter<W>) -> fmt::Result {
        f.write_str("Token(..)")
    }
}
