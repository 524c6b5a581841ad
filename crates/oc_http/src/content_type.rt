ghost use Rattle.std.specs.Prelude.{◌≡◌};

use std::marker::Model;

/// The type of a content (RFC 9110, section 8.3).
#[derive(Drop)]
pub enum ContentType {
    /// Bytes of a group, or a message.
    Octets,
    /// The state of a node, for programs.
    Json,
    /// Samples of metrics, in the text format of Prometheus.
    Metrics,
    /// A page.
    Html,
    /// Lines of plain text, such as the cause of a refusal.
    Text,
    /// A content of this media type.
    Media(MediaType),
}

/// A media type, such as `image/png`. Contracts see its name.
#[derive(Drop)]
pub struct MediaType {
    name: &'static str,
}

impl Model for MediaType {
    ghost use Rattle.std.specs.Prelude.{ℕ, List};

    ghost Value = { List ℕ };

    ghost view = { λ t. t.name.now };
}

impl MediaType {
    pub fn of(name: &'static str) -> MediaType
        ensures { result ≡ name.now }
    {
        MediaType { name }
    }

    pub(crate) fn name(&self) -> &'static str
        ensures { result.now ≡ self.now }
    {
        self.name
    }
}
