use std::marker::Model;

/// A connection from outside. A link gives each connection a number of its own.
#[derive(Clone, Copy, Debug, PartialEq, Eq)]
pub struct ConnectionId(pub u64);

impl Model for ConnectionId {
    ghost use Rattle.std.specs.Prelude.{ℕ};

    ghost Value = { ℕ };

    ghost view = { λ id. id.0 };

    ghost inverse = { λ n. record { 0 = n } };
}

/// A dial, by the number that the dialling side gives it.
#[derive(Clone, Copy, Debug, PartialEq, Eq)]
pub struct DialId(pub u64);

impl Model for DialId {
    ghost use Rattle.std.specs.Prelude.{ℕ};

    ghost Value = { ℕ };

    ghost view = { λ id. id.0 };

    ghost inverse = { λ n. record { 0 = n } };
}
