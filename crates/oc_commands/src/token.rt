//! The token that a client shows to servers, read from a file.

ghost use Rattle.std.specs.List.{list_all};
ghost use Rattle.std.specs.Prelude.{◌≡◌, true, IfErr, IfOk};
ghost use Rattle.oc_io.specs.Faults.{NoFall};
ghost use Rattle.oc_policy.specs.Tokens.{is_token_byte};
ghost use Rattle.oc_commands.specs.AtToken.{GivesToken, LacksToken, ReadsToken, TakesToken, first_line, is_token};
ghost use Rattle.oc_commands.specs.Outside.{at_source};

use oc_base::{MAX_SCHEDULE_BYTES, cut};
use oc_io::{ReadFault, Source, read_all};
use oc_words::Name;
use std::alloc::Global;

/// The greatest length of a token, in bytes.
pub const MAX_TOKEN_BYTES: usize = 200;

/// The reason why there is no token.
#[derive(Clone, Copy)]
pub enum TokenEnd {
    /// The file failed.
    Source,
    /// The file is longer than a text may be.
    Long,
    /// The first line of the file is not a token.
    Fault,
    /// Memory ran out.
    Memory,
}

/// The token in a file, if the words name one: its first line, without the line end. The file is
/// read to its end.
pub fn take_token<S: Source>(
    alloc: Global,
    name: &Option<Name>,
    file: &mut S,
) -> Result<Option<Name>, TokenEnd>
    ensures took { IfOk result (TakesToken (at_source S.gives S.fails S.ended S.faults file.old file.new) name.now) }
    ensures lacks { IfErr result (LacksToken (at_source S.gives S.fails S.ended S.faults file.old file.new) name.now) }
    ensures count { NoFall (S.faults file.old) (S.faults file.new) }
{
    match name {
        Some(_) => match read_token(alloc, file) {
            Ok(token) => Ok(Some(token)),
            Err(end) => Err(end),
        },
        None => Ok(None),
    }
}

/// The token in a file.
fn read_token<S: Source>(alloc: Global, file: &mut S) -> Result<Name, TokenEnd>
    ensures reads { ReadsToken (at_source S.gives S.fails S.ended S.faults file.old file.new) result }
    ensures count { NoFall (S.faults file.old) (S.faults file.new) }
{
    match read_all(alloc, file, MAX_SCHEDULE_BYTES) {
        Ok(bytes) => token_in(alloc, &bytes),
        Err(ReadFault::Failed) => Err(TokenEnd::Source),
        Err(ReadFault::TooMany) => Err(TokenEnd::Long),
        Err(ReadFault::Memory) => Err(TokenEnd::Memory),
    }
}

/// The token in the bytes of a file.
fn token_in(alloc: Global, bytes: &[u8]) -> Result<Name, TokenEnd>
    ensures { GivesToken result bytes.now }
{
    let line = first_line(bytes);
    if !is_token(line) {
        return Err(TokenEnd::Fault);
    }
    match Name::of(alloc, text_of(line)) {
        Ok(token) => Ok(token),
        Err(_) => Err(TokenEnd::Memory),
    }
}

/// The first line, without its line end.
fn first_line(bytes: &[u8]) -> &[u8]
    ensures { result.now ≡ first_line bytes.now }
{
    let (line, _) = cut(bytes, b'\n');
    line
}

/// Whether a line is a token.
fn is_token(line: &[u8]) -> bool
    ensures { result ≡ is_token line.now }
{
    !line.is_empty() && line.len() <= MAX_TOKEN_BYTES && are_printed(line)
}

/// Whether all bytes may be in a token.
fn are_printed(line: &[u8]) -> bool
    ensures { result ≡ list_all is_token_byte line.now }
{
    line.iter().all(|b| is_token_byte(*b))
}

/// Whether a byte is a printable ASCII byte, and not a space.
fn is_token_byte(byte: u8) -> bool
    ensures { result ≡ is_token_byte byte }
{
    33 <= byte && byte <= 126
}

/// The text of a token.
fn text_of(token: &[u8]) -> &str
    requires { is_token token.now ≡ true }
    ensures { result.now ≡ token.now }
{
    match str::from_utf8(token) {
        Ok(text) => text,
        Err(_) => unreachable!(),
    }
}
