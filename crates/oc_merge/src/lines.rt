//! The lines of a record: those that are skipped, and the meaning of each kind.

ghost use Rattle.std.specs.Prelude.{◌≡◌, IfOk};
ghost use Rattle.std.specs.List.{list_all};
ghost use Rattle.hex.specs.Hex.{decode_of};
ghost use Rattle.oc_base.specs.Steps.{with_fault};
ghost use Rattle.oc_base.specs.Words.{words};
ghost use Rattle.oc_base.specs.declared.why.Why.TheVariants.{Hex};
ghost use Rattle.oc_schedule.specs.Reading.{GivesLine};
ghost use Rattle.oc_merge.specs.Lines.{is_cut_off, is_comment, is_note, is_digit, is_digest, files_in, is_recorded, of_own, of_input, own_input, came_in, took_in, told_in};

use crate::told::{Told, published_by};
use hex::FromHexError;
use oc_base::words::{is, node, two_fields};
use oc_base::{Bytes, MAX_PUBLISH_BYTES, Memory, NodeId, Why, put, put_with_number};
use oc_model::Act;
use oc_schedule::{LineFault, act};
use std::alloc::Global;

/// The number of digits of a digest.
const DIGITS: usize = 64;

/// Whether a line was cut off by a kill: the next run ended it by `#`.
pub(crate) fn is_cut_off(line: &[u8]) -> bool
    ensures { result ≡ is_cut_off line.now }
{
    match line {
        [] => false,
        [first, ..] => *first != b'#' && line[line.len() - 1] == b'#',
    }
}

/// Whether a line that begins with this word is a comment.
pub(crate) fn is_comment(word: &[u8]) -> bool
    ensures { result ≡ is_comment word.now }
{
    matches!(word, [b'#', ..])
}

/// Whether the line is a note that a running node prints beside its inputs.
pub(crate) fn is_note(word: &[u8]) -> bool
    ensures { result ≡ is_note word.now }
{
    matches!(word, [b'!', ..])
}

/// Whether a byte is a hexadecimal digit in lower case.
fn is_digit(b: u8) -> bool
    ensures { result ≡ is_digit b }
{
    b.is_ascii_digit() || (b'a' <= b && b <= b'f')
}

/// Whether all bytes are hexadecimal digits in lower case.
fn are_digits(digits: &[u8]) -> bool
    ensures { result ≡ list_all is_digit digits.now }
{
    digits.iter().all(|b| is_digit(*b))
}

/// Whether the bytes are 64 hexadecimal digits in lower case.
fn is_digest(digits: &[u8]) -> bool
    ensures { result ≡ is_digest digits.now }
{
    digits.len() == DIGITS && are_digits(digits)
}

/// The digits of `# N has H`, if the line is spelled exactly like this.
pub(crate) fn files(alloc: Global, node: NodeId, line: &[u8]) -> Result<Option<Bytes>, Memory>
    ensures { IfOk result (λ found. found ≡ files_in node line.now) }
{
    let digits = &line[line.len().saturating_sub(DIGITS)..];
    if !is_digest(digits) {
        return Ok(None);
    }
    let mut text = Vec::new(alloc);
    put_with_number(&mut text, b"# ", u64::from(node.0))?;
    put(&mut text, b" has ")?;
    put(&mut text, digits)?;
    if line == text.as_slice() {
        Ok(Some(Bytes::of(digits.to_vec(alloc)?)))
    } else {
        Ok(None)
    }
}

/// The statement of a line about a node, in the record of `me`.
fn of_own(me: NodeId, node: NodeId, told: Told) -> Result<Told, LineFault>
    ensures { GivesLine result (of_own me node told) }
{
    if node == me {
        Ok(told)
    } else {
        Err(LineFault::Cause(Why::Word))
    }
}

/// The statement of an input line, if it publishes no more than one publish may.
fn of_input(me: NodeId, node: NodeId, told: Told) -> Result<Told, LineFault>
    ensures { GivesLine result (of_input me node told) }
{
    if published_by(&told) > MAX_PUBLISH_BYTES as u64 {
        Err(LineFault::Cause(Why::Range))
    } else {
        of_own(me, node, told)
    }
}

/// The bytes of a field in hexadecimal.
fn message_bytes(alloc: Global, field: &[u8]) -> Result<Bytes, LineFault>
    ensures { GivesLine result (with_fault Hex (decode_of field.now)) }
{
    match hex::decode(alloc, field) {
        Ok(bytes) => Ok(Bytes::of(bytes)),
        Err(FromHexError::OutOfMemory) => Err(LineFault::Memory),
        Err(_) => Err(LineFault::Cause(Why::Hex)),
    }
}

/// `recv N HEX`
fn came(alloc: Global, nodes: u32, me: NodeId, fields: &[u8]) -> Result<Told, LineFault>
    ensures { GivesLine result (came_in nodes me (words fields.now)) }
{
    let (n, x) = two_fields(fields)?;
    let of = node(n, nodes)?;
    let bytes = message_bytes(alloc, x)?;
    of_own(me, of, Told::Came(bytes))
}

/// The input of an act line.
fn own_input(me: NodeId, act: Act) -> Result<Told, LineFault>
    ensures { GivesLine result (own_input me act) }
{
    match act {
        Act::At { node, input } => of_input(me, node, Told::Took(input)),
        Act::Deliver { .. } => Err(LineFault::Cause(Why::Word)),
    }
}

/// `tick`, `fail`, `measure`, `publish`, `seal` and `client`
fn took(
    alloc: Global,
    nodes: u32,
    me: NodeId,
    word: &[u8],
    fields: &[u8],
) -> Result<Told, LineFault>
    ensures { GivesLine result (took_in nodes me word.now (words fields.now)) }
{
    let act = act(alloc, nodes, word, fields)?;
    own_input(me, act)
}

/// Whether a record can have act lines with this word.
fn is_recorded(word: &[u8]) -> bool
    ensures { result ≡ is_recorded word.now }
{
    is(word, "tick")
        || is(word, "fail")
        || is(word, "measure")
        || is(word, "publish")
        || is(word, "seal")
        || is(word, "client")
}

/// Reads a line in the record of `me`, by its word.
pub(crate) fn told(
    alloc: Global,
    nodes: u32,
    me: NodeId,
    word: &[u8],
    fields: &[u8],
) -> Result<Told, LineFault>
    ensures { GivesLine result (told_in nodes me word.now (words fields.now)) }
{
    if is(word, "recv") {
        came(alloc, nodes, me, fields)
    } else if is_recorded(word) {
        took(alloc, nodes, me, word, fields)
    } else {
        Err(LineFault::Cause(Why::Word))
    }
}
