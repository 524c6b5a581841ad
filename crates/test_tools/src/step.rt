use crate::fields::RowFields;

/// A step such as `put:/a,0,616263`: its word, and the fields after the `:`.
#[derive(Clone, Copy)]
pub struct RowStep<'a> {
    pub word: &'a str,
    pub fields: RowFields<'a>,
}

impl<'a> RowStep<'a> {
    /// The step of a text.
    pub fn of(text: &'a str) -> RowStep<'a> {
        let (word, fields) = text.split_once(':').unwrap_or((text, ""));
        RowStep {
            word,
            fields: RowFields::of(fields, ','),
        }
    }
}
