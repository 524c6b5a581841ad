//! The configuration on the input.

ghost use Rattle.std.specs.Prelude.{IfOk};
ghost use Rattle.oc_config.specs.Reading.{IsConfig};
ghost use Rattle.oc_io.specs.Faults.{NoFall};
ghost use Rattle.oc_commands.specs.AtConfig.{GivesConfig, ReadsConfig, ReadsConfigured};
ghost use Rattle.oc_commands.specs.Outside.{at_source};

use oc_base::{Bytes, MAX_SCHEDULE_BYTES};
use oc_config::{Config, ConfigFault, read};
use oc_io::{ReadFault, Source, read_all};
use std::alloc::Global;

/// The reason why there is no configuration.
#[derive(Clone, Copy)]
pub enum ConfigEnd {
    /// The input failed.
    Source,
    /// The input is longer than a configuration may be.
    Long,
    /// The text is not a valid configuration, or memory ran out.
    Fault(ConfigFault),
}

/// A configuration, and the bytes that it was read from.
#[derive(Drop)]
pub struct Configured {
    pub config: Config,
    pub text: Bytes,
}

/// Reads the input to its end, as a configuration of at most the length of a schedule.
pub(crate) fn read_config<S: Source>(alloc: Global, input: &mut S) -> Result<Config, ConfigEnd>
    ensures reads { ReadsConfig (at_source S.gives S.fails S.ended S.faults input.old input.new) result }
    ensures lawful { IfOk result IsConfig }
    ensures count { NoFall (S.faults input.old) (S.faults input.new) }
{
    match read_configured(alloc, input) {
        Ok(configured) => Ok(configured.config),
        Err(end) => Err(end),
    }
}

/// The same, with the bytes of the input.
pub(crate) fn read_configured<S: Source>(
    alloc: Global,
    input: &mut S,
) -> Result<Configured, ConfigEnd>
    ensures reads { ReadsConfigured (at_source S.gives S.fails S.ended S.faults input.old input.new) result }
    ensures lawful { IfOk result (λ configured. IsConfig configured.config) }
    ensures count { NoFall (S.faults input.old) (S.faults input.new) }
{
    match read_all(alloc, input, MAX_SCHEDULE_BYTES) {
        Ok(bytes) => match read_text(alloc, &bytes) {
            Ok(config) => Ok(Configured {
                config,
                text: Bytes::of(bytes),
            }),
            Err(end) => Err(end),
        },
        Err(ReadFault::Failed) => Err(ConfigEnd::Source),
        Err(ReadFault::TooMany) => Err(ConfigEnd::Long),
        Err(ReadFault::Memory) => Err(ConfigEnd::Fault(ConfigFault::Memory)),
    }
}

/// Reads a text as a configuration.
fn read_text(alloc: Global, bytes: &[u8]) -> Result<Config, ConfigEnd>
    ensures gives { GivesConfig result bytes.now }
    ensures lawful { IfOk result IsConfig }
{
    match read(alloc, bytes) {
        Ok(config) => Ok(config),
        Err(fault) => Err(ConfigEnd::Fault(fault)),
    }
}
