//! The error lines for the ends of a client.

ghost use Rattle.std.specs.Prelude.{◌≡◌, option_map};
ghost use Rattle.oc_commands.specs.Lines.{line_of_get, line_of_put, line_of_token, text_of};

use crate::lines::{Digits, ErrorLine, input_failed, limit_line, no_line, short_line, with_word};
use crate::token::TokenEnd;
use oc_client::{GetEnd, PutEnd};
use oc_schedule::{Scale, What};

/// The line for a client without a token.
pub(crate) fn line_of_token<'a>(
    end: TokenEnd,
    file: Option<&'a str>,
    digits: &'a mut Digits,
) -> ErrorLine<'a>
    ensures { text_of result ≡ line_of_token (option_map (λ name. name.now) file.entry) end }
{
    match end {
        TokenEnd::Source => input_failed(file),
        TokenEnd::Long => limit_line(Scale::Usual, What::Bytes, digits),
        TokenEnd::Fault => short_line("overcast: token"),
        TokenEnd::Memory => short_line("overcast: out of memory"),
    }
}

/// The line for an end of `get`.
pub(crate) fn line_of_get(end: GetEnd, digits: &mut Digits) -> ErrorLine<'_>
    ensures { text_of result ≡ line_of_get end }
{
    match end {
        GetEnd::Done => no_line(),
        GetEnd::BadUrl => short_line("overcast: get: url"),
        GetEnd::Refused(status) => {
            with_word("overcast: get: status ", digits.first.format(status))
        }
        GetEnd::Redirects => short_line("overcast: get: redirects"),
        GetEnd::Reply => short_line("overcast: get: reply"),
        GetEnd::Link => short_line("overcast: link failed"),
        GetEnd::Sink => short_line("overcast: output failed"),
        GetEnd::Memory => short_line("overcast: out of memory"),
    }
}

/// The line for an end of `put`.
pub(crate) fn line_of_put(end: PutEnd, digits: &mut Digits) -> ErrorLine<'_>
    ensures { text_of result ≡ line_of_put end }
{
    match end {
        PutEnd::Done => no_line(),
        PutEnd::BadUrl => short_line("overcast: put: url"),
        PutEnd::Refused(status) => {
            with_word("overcast: put: status ", digits.first.format(status))
        }
        PutEnd::Length(length) => {
            with_word("overcast: put: length ", digits.first.format(length))
        }
        PutEnd::Short => short_line("overcast: put: short"),
        PutEnd::Reply => short_line("overcast: put: reply"),
        PutEnd::Link => short_line("overcast: link failed"),
        PutEnd::Input => short_line("overcast: input failed"),
        PutEnd::Memory => short_line("overcast: out of memory"),
    }
}
