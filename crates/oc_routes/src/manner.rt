ghost use Rattle.std.specs.Prelude.{◌≡◌};
ghost use Rattle.oc_routes.specs.Manners.{body_for, content_for, manner_of};

use oc_http::Method;

/// The manner in which a content is asked for.
#[derive(Clone, Copy, Debug, PartialEq, Eq)]
pub enum Manner {
    /// HEAD: the head of the reply alone.
    HeadAlone,
    /// GET, once.
    Once,
    /// A GET of version 1.1 with a part `follow`: if it is of a group, more is asked for later.
    Follow,
}

impl Manner {
    /// The content that is sent in this manner: none for a HEAD.
    pub(crate) fn content_for<T: Copy>(self, content: T) -> Option<T>
        ensures { result ≡ content_for self content }
    {
        match self {
            Manner::HeadAlone => None,
            Manner::Once | Manner::Follow => Some(content),
        }
    }
}

/// The manner in which a content is asked for; `follow` counts only in a GET of version 1.1.
pub(crate) fn manner_of(method: Method, minor: u8, follow: bool) -> Manner
    ensures { result ≡ manner_of method minor follow }
{
    match method {
        Method::Get if follow && minor == 1 => Manner::Follow,
        Method::Get => Manner::Once,
        _ => Manner::HeadAlone,
    }
}

/// A body, except for a HEAD.
pub(crate) fn body_for(manner: Manner, text: &[u8]) -> &[u8]
    ensures { result.now ≡ body_for manner text.now }
{
    match manner {
        Manner::HeadAlone => b"",
        Manner::Once | Manner::Follow => text,
    }
}
