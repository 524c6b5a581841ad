//! Writing of the line on the error output that tells how a run ended.

ghost use Rattle.std.specs.Prelude.{◌≡◌, ℕ, List, OnErr, OnOk, option_map};
ghost use Rattle.oc_io.specs.Faults.{NoFall, Rose};
ghost use Rattle.oc_replay.specs.Pieces.{SomeFront};
ghost use Rattle.oc_commands.specs.Lines.{line_of, text_of};
ghost use Rattle.oc_commands.specs.Run.{IsWrittenOrCut};
ghost use Rattle.oc_http.specs.Parts.{joined};

use crate::client_lines::{line_of_get, line_of_put, line_of_token};
use crate::ending::End;
use crate::lines::{
    Digits, ErrorLine, line_of_check, line_of_configured, line_of_gen, line_of_records,
    line_of_replay, line_of_rules, line_of_service, no_line, short_line,
};
use crate::replaying::scale_of;
use crate::texts::usage;
use oc_io::{Failed, Sink, write_all};

/// Writes these parts to the sink, one after another.
pub(crate) fn write_parts<K: Sink>(sink: &mut K, parts: &[&[u8]]) -> Result<(), Failed>
    ensures told { IsWrittenOrCut K.takes K.fails K.faults sink.old sink.new (joined parts.now) }
    ensures takes { OnOk result (K.takes sink.old (joined parts.now) sink.new) }
    ensures fails { OnErr result (SomeFront (joined parts.now) (λ front. K.fails sink.old front sink.new)) }
    ensures cause { OnErr result (Rose (K.faults sink.old) (K.faults sink.new)) }
    ensures count { NoFall (K.faults sink.old) (K.faults sink.new) }
{
    for part in parts {
        write_all(sink, part)?;
    }
    Ok(())
}

/// Writes the line for an end on the error output; `file` is the file that the end is about, if
/// any. If that output fails, a prefix of the line is written.
pub fn tell<E: Sink>(err: &mut E, end: &End, file: Option<&str>)
    ensures told { (usage : List ℕ) × IsWrittenOrCut E.takes E.fails E.faults err.old err.new
        (line_of end.now (option_map (λ name. name.now) file.entry) usage) }
    ensures count { NoFall (E.faults err.old) (E.faults err.new) }
{
    let mut digits = Digits::new();
    let line = line_of(end, file, &mut digits);
    write_line(err, line);
}

/// Writes a line, or a prefix of the line if the output fails.
fn write_line<E: Sink>(err: &mut E, line: ErrorLine<'_>)
    ensures told { IsWrittenOrCut E.takes E.fails E.faults err.old err.new (text_of line.entry) }
    ensures count { NoFall (E.faults err.old) (E.faults err.new) }
{
    let _ = write_parts(
        err,
        &[
            line.first.as_bytes(),
            line.second.as_bytes(),
            line.third.as_bytes(),
            line.fourth.as_bytes(),
            line.fifth,
            line.end.as_bytes(),
        ],
    );
}

/// The line for an end.
fn line_of<'a>(end: &'a End, file: Option<&'a str>, digits: &'a mut Digits) -> ErrorLine<'a>
    ensures { (usage : List ℕ) × (text_of result ≡ line_of end.now (option_map (λ name. name.now) file.entry) usage) }
{
    match end {
        End::Helped => no_line(),
        End::HelpFailed => short_line("overcast: output failed"),
        End::Versioned => no_line(),
        End::VersionFailed => short_line("overcast: output failed"),
        End::Misused => ErrorLine {
            first: "overcast: usage\n",
            second: usage(),
            third: "",
            fourth: "",
            fifth: &[],
            end: "",
        },
        End::NoMemory => short_line("overcast: out of memory"),
        End::Replayed { large, end } => line_of_replay(scale_of(*large), *end, file, digits),
        End::Generated(end) => line_of_gen(*end),
        End::Merged(end) => line_of_records(*end, digits),
        End::Listed(end) => line_of_rules(end, file, digits),
        End::Checked(end) => line_of_check(*end, digits),
        End::CheckedConfigured(end) => line_of_configured(end, file, digits),
        End::NoToken(end) => line_of_token(*end, file, digits),
        End::Got(end) => line_of_get(*end, digits),
        End::Published(end) => line_of_put(*end, digits),
        End::Served(end) => line_of_service(end, file, digits),
    }
}
