ghost use Rattle.std.specs.Prelude.{◌≡◌, None, Some, is_some, option_map};
ghost use Rattle.std.specs.Str.{bytes_eq};
ghost use Rattle.oc_policy.specs.Covering.{part_covers};
ghost use Rattle.oc_policy.specs.Tokens.{is_shown};

use crate::token::Token;
use std::marker::Model;

/// The token that a rule demands of a request, if it demands one. Contracts see the token.
///
/// It is a type of its own because the kit cannot keep a list of rules through a loop where a field of theirs is an
/// `Option` of a type with an invariant.
#[derive(Clone, Copy, Debug)]
pub struct Demand {
    token: Option<Token>,
}

impl Model for Demand {
    ghost use Rattle.std.specs.Prelude.{ℕ, List, Option, refl};

    ghost Value = { Option (List ℕ) };

    ghost view = { λ d. d.token };

    ghost inverse = { λ token. record { token = token } };
}

impl Demand {
    /// Nothing is demanded.
    pub fn nothing() -> Demand
        ensures { result ≡ None }
    {
        Demand { token: None }
    }

    /// This token, or nothing where there is none.
    pub fn of(token: Option<Token>) -> Demand
        ensures { result ≡ token }
    {
        Demand { token }
    }

    /// Whether a token is demanded.
    pub fn is_some(&self) -> bool
        ensures { result ≡ is_some self.now }
    {
        self.token.is_some()
    }

    /// Whether a request meets the demand. `shown` is the value of its Authorization field, `None` where it has
    /// none, or more than one.
    pub(crate) fn is_met(&self, shown: Option<&[u8]>) -> bool
        ensures { result ≡ is_shown self.now (option_map (λ s. s.now) shown.entry) }
    {
        match (&self.token, shown) {
            (None, _) => true,
            (Some(_), None) => false,
            (Some(token), Some(value)) => token.is_in(value),
        }
    }

    /// Whether each request that meets the other demand meets this one: it demands nothing, or the same.
    pub(crate) fn covers(&self, other: &Demand) -> bool
        ensures { result ≡ part_covers bytes_eq self.now other.now }
    {
        match (&self.token, &other.token) {
            (None, None) | (None, Some(_)) => true,
            (Some(_), None) => false,
            (Some(token), Some(other)) => token.bytes() == other.bytes(),
        }
    }
}
