//! The contents of rows.

use oc_select::{Content, Source, change_at};
use test_tools::{Fault, RowStep};

/// The content in a text: `open:LENGTH` or `sealed:LENGTH` of a group, or `file:PLACE,LENGTH,NAME,TIME`, where NAME is the
/// length of the group's name.
pub fn content_in(text: &str) -> Result<Content, Fault> {
    let mut step = RowStep::of(text);
    match step.word {
        "open" => Ok(Content {
            length: step.fields.number()?,
            source: Source::Group { is_open: true },
        }),
        "sealed" => Ok(Content {
            length: step.fields.number()?,
            source: Source::Group { is_open: false },
        }),
        "file" => file_in(step),
        _ => Err(Fault::Field),
    }
}

fn file_in(mut step: RowStep<'_>) -> Result<Content, Fault> {
    let at = step.fields.number()?;
    let length = step.fields.number()?;
    let name_len = step.fields.number()?;
    let changed = change_at(step.fields.number()?);
    Ok(Content {
        length,
        source: Source::File {
            at,
            name_len,
            changed,
        },
    })
}
