//! Lists of entity tags, member by member.

ghost use Rattle.std.specs.Prelude.{◌≡◌, ◌∷◌, [], ◌<◌, false, length, IfNone, IfSome};
ghost use Rattle.std.specs.List.{list_all};
ghost use Rattle.oc_select.specs.Tags.{is_quoted, is_separator, is_tag, is_tag_byte, member_of, members_in, parts, quoted_after, without_mark};
ghost use Rattle.oc_select.specs.Naming.{is_same, naming};
ghost use Rattle.oc_select.specs.Scanning.{comma_from, concluded, heard, heard_all, tag_heard};

use crate::naming::{Comparison, Naming};
use crate::text::trim;
use oc_base::Text;

/// What the members of a list said of a tag, as far as they were looked at.
#[derive(Clone, Copy)]
enum Heard {
    /// There was no member.
    Nothing,
    /// There was `*` alone.
    Any,
    /// There were tags alone, and whether one of them is the tag.
    Tags { named: bool },
    /// There was a member that can't be there.
    Wrong,
}

/// What the fields of a name, which are one list, say of a tag.
pub(crate) fn naming(how: Comparison, tag: &[u8], values: &[Text]) -> Naming
    ensures { result ≡ naming how tag.now values.now }
{
    let mut said = Heard::Nothing;
    let mut rest = values;
    'values: while let Some((value, others)) = rest.split_first() {
        said = after_value(how, tag, said, value.items());
        rest = others;
    }
    conclusion(said)
}

/// What all that was heard says.
fn conclusion(said: Heard) -> Naming
    ensures { result ≡ concluded said }
{
    match said {
        Heard::Nothing | Heard::Wrong => Naming::Nothing,
        Heard::Any | Heard::Tags { named: true } => Naming::Named,
        Heard::Tags { named: false } => Naming::Other,
    }
}

/// What was heard, with the members of one more value.
fn after_value(how: Comparison, tag: &[u8], before: Heard, value: &[u8]) -> Heard
    ensures { result ≡ heard_all how tag.now before (members_in value.now) }
{
    let mut said = before;
    let mut rest = value;
    'parts: loop {
        let (part, others) = cut_part(rest);
        said = after_part(how, tag, said, part);
        match others {
            Some(others) => rest = others,
            None => return said,
        }
    }
}

/// What was heard, with the member that one more part is, if it is one.
fn after_part(how: Comparison, tag: &[u8], said: Heard, part: &[u8]) -> Heard
    ensures { result ≡ heard_all how tag.now said (member_of part.now) }
{
    let member = trim(part);
    if member.is_empty() {
        return said;
    }
    after_member(how, tag, said, member)
}

/// What was heard, with one more member.
fn after_member(how: Comparison, tag: &[u8], said: Heard, member: &[u8]) -> Heard
    ensures { result ≡ heard how tag.now said member.now }
{
    match said {
        Heard::Nothing if member == b"*".as_slice() => Heard::Any,
        Heard::Nothing => after_tag(how, tag, false, member),
        Heard::Tags { named } => after_tag(how, tag, named, member),
        Heard::Any | Heard::Wrong => Heard::Wrong,
    }
}

/// What was heard of tags alone, with one more member.
fn after_tag(how: Comparison, tag: &[u8], named: bool, member: &[u8]) -> Heard
    ensures { result ≡ tag_heard how tag.now named member.now }
{
    if !is_tag(member) {
        return Heard::Wrong;
    }
    Heard::Tags {
        named: named || is_same(how, tag, member),
    }
}

/// Whether a member is this tag, which is a strong one.
fn is_same(how: Comparison, tag: &[u8], member: &[u8]) -> bool
    ensures { result ≡ is_same how tag.now member.now }
{
    match how {
        Comparison::Strong => member == tag,
        Comparison::Weak => without_mark(member) == tag,
    }
}

/// Whether a member is a tag, weak or strong.
fn is_tag(member: &[u8]) -> bool
    ensures { result ≡ is_tag member.now }
{
    is_quoted(without_mark(member))
}

/// A tag without the mark of a weak one.
fn without_mark(tag: &[u8]) -> &[u8]
    ensures { result.now ≡ without_mark tag.now }
{
    tag.strip_prefix(b"W/").unwrap_or(tag)
}

/// Whether a text is bytes of a tag between two quotes.
fn is_quoted(text: &[u8]) -> bool
    ensures { result ≡ is_quoted text.now }
{
    match text {
        [b'"', inside @ .., b'"'] => are_tag_bytes(inside),
        _ => false,
    }
}

/// Whether each byte may be between the quotes of a tag.
fn are_tag_bytes(bytes: &[u8]) -> bool
    ensures { result ≡ list_all is_tag_byte bytes.now }
{
    bytes.iter().all(|byte| is_tag_byte(*byte))
}

/// Whether a byte may be between the quotes of a tag.
fn is_tag_byte(byte: u8) -> bool
    ensures { result ≡ is_tag_byte byte }
{
    byte == b'!' || (35 <= byte && byte <= 126) || 128 <= byte
}

/// Cuts a list at its first comma that is not within quotes: the part before it, and the bytes after it; `None` where
/// there is no such comma.
fn cut_part(list: &[u8]) -> (&[u8], Option<&[u8]>)
    ensures last { IfNone result.1 (parts false list.now ≡ result.0.now ∷ []) }
    ensures first { IfSome result.1 (λ rest. parts false list.now ≡ result.0.now ∷ parts false rest.now) }
    ensures shorter { IfSome result.1 (λ rest. length rest.now < length list.now) }
{
    match place_of_comma(list) {
        None => (list, None),
        Some(at) => (&list[..at], Some(&list[at + 1..])),
    }
}

/// The place of the first comma that is not within quotes.
fn place_of_comma(list: &[u8]) -> Option<usize>
    ensures place { result ≡ comma_from 0 false list.now }
    ensures within { IfSome result (λ at. at < length list.now) }
{
    let mut quoted = false;
    for (at, byte) in list.iter().enumerate() {
        if is_separator(quoted, *byte) {
            return Some(at);
        }
        quoted = quoted_after(quoted, *byte);
    }
    None
}

/// Whether a byte is a comma that is not within quotes.
fn is_separator(quoted: bool, byte: u8) -> bool
    ensures { result ≡ is_separator quoted byte }
{
    byte == b',' && !quoted
}

/// Whether a place is within quotes, after one more byte.
fn quoted_after(quoted: bool, byte: u8) -> bool
    ensures { result ≡ quoted_after quoted byte }
{
    if byte == b'"' { !quoted } else { quoted }
}
