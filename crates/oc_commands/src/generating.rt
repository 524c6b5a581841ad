//! The command `gen`, which generates a schedule from a seed.
ghost use Rattle.std.specs.Prelude.{◌≡◌, IfOk};
ghost use Rattle.oc_io.specs.Faults.{NoFall};
ghost use Rattle.oc_commands.specs.AtGen.{HappenedAtGen};
ghost use Rattle.oc_commands.specs.Outside.{at_sink};
ghost use Rattle.oc_commands.specs.AtGen.{sample_text};
ghost use Rattle.oc_words.specs.Requests.{IsSample};

use oc_base::Memory;
use oc_io::{Sink, write_all};
use oc_schedule::{generate, print};
use oc_words::Sample;
use std::alloc::Global;

/// The end of `gen`.
#[derive(Clone, Copy)]
pub enum GenEnd {
    /// The whole schedule was written.
    Done,
    /// The output failed.
    Sink,
    /// Memory ran out, and nothing was written.
    Memory,
}

/// Writes the text of the schedule. All memory is taken before anything is written.
pub fn write_sample<K: Sink>(alloc: Global, sample: Sample, out: &mut K) -> GenEnd
    requires { IsSample sample }
    ensures happened { HappenedAtGen (at_sink K.takes K.fails K.faults out.old out.new) sample result }
    ensures count { NoFall (K.faults out.old) (K.faults out.new) }
{
    match text_of(alloc, sample) {
        Ok(text) => match write_all(out, &text) {
            Ok(()) => GenEnd::Done,
            Err(_) => GenEnd::Sink,
        },
        Err(Memory) => GenEnd::Memory,
    }
}

/// The text of the schedule.
fn text_of(alloc: Global, sample: Sample) -> Result<Vec<u8>, Memory>
    requires { IsSample sample }
    ensures { IfOk result (λ text. text.items ≡ sample_text sample) }
{
    let schedule = generate(alloc, sample.seed, sample.nodes, sample.events)?;
    print(alloc, &schedule)
}
