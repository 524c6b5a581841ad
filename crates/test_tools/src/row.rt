/// A row of a table: the name of a case, its input, and the expected words.
#[derive(Clone, Copy)]
pub struct Row<'a> {
    pub name: &'a str,
    pub given: &'a str,
    pub wanted: &'a str,
}

impl<'a> Row<'a> {
    /// The row of a line, if it is not empty and does not begin with `#`. The input ends before the
    /// first `=`.
    pub fn read(line: &'a str) -> Option<Row<'a>> {
        let line = line.trim();
        if line.is_empty() || line.starts_with('#') {
            return None;
        }
        let (front, wanted) = line.split_once('=').unwrap_or((line, ""));
        let (name, given) = front.split_once(' ').unwrap_or((front, ""));
        Some(Row {
            name,
            given: given.trim(),
            wanted: wanted.trim(),
        })
    }
}
