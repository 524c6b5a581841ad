//! Progress lines of a client on the error output.

ghost use Rattle.std.specs.Prelude.{◌≡◌};
ghost use Rattle.oc_client.specs.Lines.{Tells};
ghost use Rattle.oc_commands.specs.Telling.{last_line};
ghost use Rattle.oc_commands.specs.TellingExamples.{AreTold};

use oc_client::ProgressLines;
use oc_io::{Failed, Sink};

/// A sink whose relations include its count of faults.
#[derive(Drop)]
pub struct Counting<E> {
    pub sink: E,
}

impl<E: Sink> Sink for Counting<E> {
    ghost use Rattle.oc_commands.specs.Counting.{Fails, Takes, takes_fails, takes_nothing, takes_then};

    ghost takes = { Takes E.takes E.faults };

    ghost fails = { Fails E.fails E.faults };

    ghost calls = { λ counting. E.calls counting.sink };

    ghost faults = { λ counting. E.faults counting.sink };

    ghost takes_nothing = { takes_nothing E.takes E.faults E.takes_nothing };

    ghost takes_then = { takes_then E.takes E.faults E.takes_then };

    ghost takes_fails = { takes_fails E.takes E.fails E.faults E.takes_fails };

    fn write(&mut self, bytes: &[u8]) -> Result<usize, Failed> {
        self.sink.write(bytes)
    }
}

/// The progress lines of a client at its start. None is written unless `wanted`.
pub fn progress_on<E: Sink>(error: E, wanted: bool) -> ProgressLines<Counting<E>>
    ensures sink { result.sink.sink ≡ error }
    ensures active { result.active ≡ wanted }
    ensures count { result.count ≡ 0 }
{
    ProgressLines::new(Counting { sink: error }, wanted)
}

/// The error output that the lines were written to.
pub fn error_of<E: Sink>(lines: ProgressLines<Counting<E>>) -> E
    ensures { result ≡ lines.sink.sink }
{
    let Counting { sink } = lines.into_sink();
    sink
}

/// Writes the last line, for all bytes, if all is done.
pub(crate) fn finish<E: Sink>(lines: &mut ProgressLines<E>, whole: bool)
    ensures { Tells E.takes E.fails lines.old.sink lines.new.sink lines.old.active lines.new.active (last_line whole lines.old.count) }
{
    if whole {
        lines.finish();
    }
}

/// The worked examples of a client's progress lines, computed from the definitions.
pub fn progress_computes()
    ensures { AreTold }
{}
