/// What a list of tags says of a content.
#[derive(Clone, Copy)]
pub enum Naming {
    /// Nothing: it has no tag, or is not spelled as a list of tags.
    Nothing,
    /// It is `*`, or one of its tags is the content's.
    Named,
    /// None of its tags is the content's.
    Other,
}

/// How two tags are compared (RFC 9110, section 8.8.3.2).
#[derive(Clone, Copy)]
pub enum Comparison {
    /// They are the same, and none is weak.
    Strong,
    /// They are the same, apart from the mark of a weak one.
    Weak,
}
