ghost use Rattle.std.specs.Prelude.{◌≡◌};
ghost use Rattle.oc_config.specs.Values.{fault_of};

use crate::config_key::ConfigKey;
use crate::key_name::KeyName;
use crate::section_name::SectionName;
use oc_base::{Memory, Why};
use oc_updown::MeasureFault;
use std::alloc::{AllocError, AllocFailed};
use std::error::Error;
use std::fmt;

/// The first fault of a text that is no configuration.
#[derive(Clone, Copy, Debug)]
pub enum ConfigFault {
    /// The text is no TOML; the fault begins in this line, counted from 1.
    Toml(u64),
    /// A table lacks this key.
    Missing(SectionName, ConfigKey),
    /// This key of a table has a value that it may not have.
    Value(SectionName, ConfigKey),
    /// The id of a table is that of a table before it.
    Repeat(SectionName, u32),
    /// This line of the measures, counted from 1, is refused for this cause.
    Measure { line: u32, why: Why },
    /// A table has a key that it cannot have.
    Unknown(SectionName, KeyName),
    /// Memory ran out.
    Memory,
}

impl fmt::Display for ConfigFault {
    fn fmt<W: fmt::Write>(&self, f: &mut fmt::Formatter<W>) -> fmt::Result {
        match self {
            ConfigFault::Toml(line) => write!(f, "toml line {line}"),
            ConfigFault::Missing(place, key) => write!(f, "{place}missing {key}"),
            ConfigFault::Value(place, key) => write!(f, "{place}value {key}"),
            ConfigFault::Repeat(place, id) => write!(f, "{place}repeat {id}"),
            ConfigFault::Measure { line, why } => write!(f, "measure {line}: {why}"),
            ConfigFault::Unknown(place, name) => write!(f, "{place}unknown {name}"),
            ConfigFault::Memory => f.write_str("out of memory"),
        }
    }
}

impl Error for ConfigFault {}

impl From<AllocError> for ConfigFault {
    ghost use Rattle.oc_config.specs.declared.fault.ConfigFault.TheVariants.{Memory};

    ghost from_gives = { λ _ fault. fault ≡ Memory };

    fn from(_error: AllocError) -> ConfigFault {
        ConfigFault::Memory
    }
}

impl<T: Drop> From<AllocFailed<T>> for ConfigFault {
    ghost use Rattle.oc_config.specs.declared.fault.ConfigFault.TheVariants.{Memory};

    ghost from_gives = { λ _ fault. fault ≡ Memory };

    fn from(_error: AllocFailed<T>) -> ConfigFault {
        ConfigFault::Memory
    }
}

impl From<Memory> for ConfigFault {
    ghost use Rattle.oc_config.specs.declared.fault.ConfigFault.TheVariants.{Memory};

    ghost from_gives = { λ _ fault. fault ≡ Memory };

    fn from(_error: Memory) -> ConfigFault {
        ConfigFault::Memory
    }
}

impl From<MeasureFault> for ConfigFault {
    ghost from_gives = { λ error fault. fault ≡ fault_of error };

    fn from(error: MeasureFault) -> ConfigFault {
        match error {
            MeasureFault::Line { line, why } => ConfigFault::Measure { line, why },
            MeasureFault::Memory => ConfigFault::Memory,
        }
    }
}
