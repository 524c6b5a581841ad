use crate::progress_lines::ProgressLines;
use oc_io::{Failed, Sink};

/// A sink that reports the number of bytes it took.
#[derive(Drop)]
pub struct Metered<K, E> {
    /// The sink that takes the bytes.
    pub sink: K,
    /// The lines that report the bytes.
    pub lines: ProgressLines<E>,
}

impl<K: Sink, E: Sink> Sink for Metered<K, E> {
    ghost use Rattle.oc_client.specs.Metered.{Goes, Goes-nothing, Goes-then};

    ghost takes = { Goes E.takes E.fails K.takes };

    ghost fails = { Goes E.takes E.fails K.fails };

    ghost calls = { λ metered. K.calls metered.sink };

    ghost faults = { λ metered. K.faults metered.sink };

    ghost takes_nothing = { Goes-nothing E.takes E.fails E.takes_nothing E.takes_then E.takes_fails K.takes K.takes_nothing };

    ghost takes_then = { Goes-then E.takes E.fails E.takes_nothing E.takes_then E.takes_fails K.takes K.takes K.takes_then };

    ghost takes_fails = { Goes-then E.takes E.fails E.takes_nothing E.takes_then E.takes_fails K.takes K.fails K.takes_fails };

    fn write(&mut self, bytes: &[u8]) -> Result<usize, Failed> {
        let count = self.sink.write(bytes)?;
        self.lines.add(count as u64);
        Ok(count)
    }
}
