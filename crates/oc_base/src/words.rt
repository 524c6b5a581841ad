//! Readers of texts: the lines of a text, the words of a line, and the value of a word.
//!
//! Spaces separate words, one or more. A field is a number if it has only decimal digits, with no leading
//! zero unless it is `0`.
ghost use Rattle.std.specs.Prelude.{◌≡◌, ◌^◌, ◌<◌, ◌≤◌, ◌==◌, [], ◌∷◌, length, IsTrue, IfNone, IfSome, IfOk, IfErr, OnOk};
ghost use Rattle.std.specs.Char.{is_ascii_digit};
ghost use Rattle.std.specs.Option.{SomeIff};
ghost use Rattle.std.specs.List.{list_all};
ghost use Rattle.std.specs.Str.{bytes_eq};
ghost use Rattle.std.specs.Str.Lines.{lines, strip_carriage_return};
ghost use Rattle.std.specs.Str.Parse.{digits_value};
ghost use Rattle.oc_base.specs.Words.{words, one, two, three, four, six, IsMore, GivesFields, is_number, number_in, node_in};
ghost use Rattle.oc_base.specs.declared.why.Why.TheVariants.{Count};

use crate::{NodeId, Why, cut};
use std::str;

/// Cuts off the first line of bytes that are not empty; answers it and the rest.
pub fn first_line(bytes: &[u8]) -> (&[u8], &[u8])
    requires { 0 < length bytes.now }
    ensures first { lines bytes.now ≡ result.0.now ∷ lines result.1.now }
    ensures shorter { length result.1.now < length bytes.now }
{
    match cut(bytes, b'\n') {
        (last, None) => (last, &[]),
        (line, Some(rest)) => (without_return(line), rest),
    }
}

/// A line without the carriage return at its end.
fn without_return(line: &[u8]) -> &[u8]
    ensures { result.now ≡ strip_carriage_return line.now }
{
    match line {
        [front @ .., b'\r'] => front,
        _ => line,
    }
}

/// Cuts off the first word of a line; answers it and the rest.
pub fn first_word(line: &[u8]) -> Option<(&[u8], &[u8])>
    ensures none { IfNone result (words line.now ≡ []) }
    ensures first { IfSome result (λ found. words line.now ≡ found.0.now ∷ words found.1.now) }
{
    let mut rest = line;
    'spaces: loop {
        match cut(rest, b' ') {
            ([], None) => return None,
            ([], Some(behind)) => rest = behind,
            (word, None) => return Some((word, &[])),
            (word, Some(behind)) => return Some((word, behind)),
        }
    }
}

/// Whether a word equals this text.
pub fn is(word: &[u8], text: &str) -> bool
    ensures { result ≡ bytes_eq word.now text.now }
{
    word == text.as_bytes()
}

/// Reads a line of exactly one field.
pub fn one_field(line: &[u8]) -> Result<&[u8], Why>
    ensures { GivesFields (λ a. a.now) result (one (words line.now)) }
{
    let (a, rest) = field(line)?;
    end(rest)?;
    Ok(a)
}

/// Reads a line of exactly two fields.
pub fn two_fields(line: &[u8]) -> Result<(&[u8], &[u8]), Why>
    ensures { GivesFields (λ f. (f.0.now, f.1.now)) result (two (words line.now)) }
{
    let (a, rest) = field(line)?;
    let b = one_field(rest)?;
    Ok((a, b))
}

/// Reads a line of exactly three fields.
pub fn three_fields(line: &[u8]) -> Result<(&[u8], &[u8], &[u8]), Why>
    ensures { GivesFields (λ f. (f.0.now, f.1.now, f.2.now)) result (three (words line.now)) }
{
    let (a, rest) = field(line)?;
    let (b, c) = two_fields(rest)?;
    Ok((a, b, c))
}

/// Reads a line of exactly four fields.
pub fn four_fields(line: &[u8]) -> Result<(&[u8], &[u8], &[u8], &[u8]), Why>
    ensures { GivesFields (λ f. (f.0.now, f.1.now, f.2.now, f.3.now)) result (four (words line.now)) }
{
    let (a, rest) = field(line)?;
    let (b, c, d) = three_fields(rest)?;
    Ok((a, b, c, d))
}

/// The six fields of a line.
pub type Six<'a> = (&'a [u8], &'a [u8], &'a [u8], &'a [u8], &'a [u8], &'a [u8]);

/// Reads a line of exactly six fields.
pub fn six_fields(line: &[u8]) -> Result<Six<'_>, Why>
    ensures { GivesFields (λ f. (f.0.now, f.1.now, f.2.now, f.3.now, f.4.now, f.5.now)) result (six (words line.now)) }
{
    let (a, rest) = field(line)?;
    let (b, rest) = field(rest)?;
    let (c, d, e, f) = four_fields(rest)?;
    Ok((a, b, c, d, e, f))
}

/// Cuts off the next field; answers it and the rest.
fn field(line: &[u8]) -> Result<(&[u8], &[u8]), Why>
    ensures found { IfOk result (λ f. words line.now ≡ f.0.now ∷ words f.1.now) }
    ensures none { IfErr result (λ why. (words line.now ≡ []) × (why ≡ Count)) }
{
    match first_word(line) {
        Some(found) => Ok(found),
        None => Err(Why::Count),
    }
}

/// Refuses a line that has more words.
fn end(line: &[u8]) -> Result<(), Why>
    ensures none { OnOk result (words line.now ≡ []) }
    ensures more { IfErr result (λ why. (why ≡ Count) × IsMore (words line.now)) }
{
    match first_word(line) {
        None => Ok(()),
        Some(_) => Err(Why::Count),
    }
}

/// Reads a number from `least` to `most`: `Number` if the field is no number, `Range` if the number is outside
/// the range.
pub fn number(field: &[u8], least: u64, most: u64) -> Result<u64, Why>
    ensures said { result ≡ number_in least most field.now }
    ensures range { IfOk result (λ number. (least ≤ number) × (number ≤ most)) }
{
    if !is_spelled(field) {
        return Err(Why::Number);
    }
    match value_of(field) {
        Some(number) if least <= number && number <= most => Ok(number),
        _ => Err(Why::Range),
    }
}

/// Reads the id of one of `nodes` nodes.
pub fn node(field: &[u8], nodes: u32) -> Result<NodeId, Why>
    ensures said { result ≡ node_in nodes field.now }
    ensures range { IfOk result (λ node. (1 ≤ node) × (node ≤ nodes)) }
{
    let number = number(field, 1, u64::from(nodes))?;
    Ok(NodeId(number as u32))
}

/// Whether a field is spelled as a number.
fn is_spelled(field: &[u8]) -> bool
    ensures { result ≡ is_number field.now }
{
    !field.is_empty() && !(field.len() > 1 && field[0] == b'0') && are_digits(field)
}

/// Whether each byte is a decimal digit.
pub fn are_digits(field: &[u8]) -> bool
    ensures { result ≡ list_all is_ascii_digit field.now }
{
    field.iter().all(|b| b.is_ascii_digit())
}

/// The value of decimal digits; `None` if it does not fit into 64 bits.
pub fn value_of(digits: &[u8]) -> Option<u64>
    requires some { 0 < length digits.now }
    requires digits { IsTrue (list_all is_ascii_digit digits.now) }
    ensures { SomeIff result (digits_value 10 digits.now < 2 ^ 64) (digits_value 10 digits.now) }
{
    match str::from_utf8(digits) {
        Ok(text) => text.parse().ok(),
        Err(_) => None,
    }
}
