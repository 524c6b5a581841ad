//! The faults of a configuration, in words.

ghost use Rattle.std.specs.Prelude.{◌≡◌, ◌++◌, OnOk, codes, decimal};
ghost use Rattle.oc_config.specs.FaultTexts.{fault_text, place_text};
ghost use Rattle.oc_config.specs.Keys.{key_text};

use crate::config_key::ConfigKey;
use crate::fault::ConfigFault;
use crate::section_name::SectionName;
use oc_base::{Memory, Why, put, put_number};

/// Puts what is wrong with a configuration, as `Display` tells it.
pub fn put_fault(out: &mut Vec<u8>, fault: &ConfigFault) -> Result<(), Memory>
    ensures { OnOk result (out.new.items ≡ out.old.items ++ fault_text fault.now) }
{
    match fault {
        ConfigFault::Toml(line) => {
            put(out, b"toml line ")?;
            put_number(out, *line)
        }
        ConfigFault::Missing(place, key) => put_key_fault(out, *place, b"missing ", *key),
        ConfigFault::Value(place, key) => put_key_fault(out, *place, b"value ", *key),
        ConfigFault::Repeat(place, id) => {
            put_place(out, *place)?;
            put(out, b"repeat ")?;
            put_number(out, u64::from(*id))
        }
        ConfigFault::Measure { line, why } => put_measure_fault(out, *line, *why),
        ConfigFault::Unknown(place, name) => {
            put_place(out, *place)?;
            put(out, b"unknown ")?;
            put(out, name.bytes())
        }
        ConfigFault::Memory => put(out, b"out of memory"),
    }
}

/// Puts the fault of a key in a table.
fn put_key_fault(
    out: &mut Vec<u8>,
    place: SectionName,
    fault: &[u8],
    key: ConfigKey,
) -> Result<(), Memory>
    ensures { OnOk result (out.new.items ≡ out.old.items ++ place_text place ++ fault.now ++ key_text key) }
{
    put_place(out, place)?;
    put(out, fault)?;
    put(out, key.word().as_bytes())
}

/// Puts the fault of a line of the measures.
fn put_measure_fault(out: &mut Vec<u8>, line: u32, why: Why) -> Result<(), Memory>
    ensures { OnOk result (out.new.items ≡ out.old.items ++ fault_text (ConfigFault.Measure line why)) }
{
    put(out, b"measure ")?;
    put_number(out, u64::from(line))?;
    put(out, b": ")?;
    put(out, why.word().as_bytes())
}

/// Puts the table that a fault is in, where it is not the whole text.
fn put_place(out: &mut Vec<u8>, place: SectionName) -> Result<(), Memory>
    ensures { OnOk result (out.new.items ≡ out.old.items ++ place_text place) }
{
    match place {
        SectionName::Top => Ok(()),
        SectionName::Node(number) => put_numbered(out, b"node ", number),
        SectionName::Rule(number) => put_numbered(out, b"rule ", number),
    }
}

fn put_numbered(out: &mut Vec<u8>, word: &[u8], number: u32) -> Result<(), Memory>
    ensures { OnOk result (out.new.items ≡ out.old.items ++ word.now ++ decimal number ++ codes ": ") }
{
    put(out, word)?;
    put_number(out, u64::from(number))?;
    put(out, b": ")
}
