/// The fields of one name.
#[derive(Clone, Copy)]
pub enum FieldMatch<'a> {
    Absent,
    /// One field, and its value.
    One(&'a [u8]),
    /// More than one field, and the value of the first.
    Several(&'a [u8]),
}
