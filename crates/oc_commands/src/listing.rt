//! The command `rules`, which lists the access rules of a configuration.
ghost use Rattle.oc_config.specs.Reading.{IsConfig};
ghost use Rattle.oc_io.specs.Faults.{NoFall};
ghost use Rattle.oc_commands.specs.AtRules.{HappenedAtRules, WritesRules};
ghost use Rattle.oc_commands.specs.Outside.{at_sink, at_source};

use crate::configuring::{ConfigEnd, read_config};
use oc_base::Memory;
use oc_config::Config;
use oc_io::{Sink, Source, write_all};
use oc_policy::rules_text;
use std::alloc::Global;

/// The end of `rules`.
#[derive(Clone, Copy)]
pub enum RulesEnd {
    /// All lines were written.
    Done,
    /// There is no configuration, and nothing was written.
    Config(ConfigEnd),
    /// The output failed.
    Sink,
    /// Memory ran out, and nothing was written.
    Memory,
}

/// Writes the lines of the rules of the configuration on the input. All memory is taken before anything is
/// written.
pub fn list_rules<S: Source, K: Sink>(alloc: Global, input: &mut S, out: &mut K) -> RulesEnd
    ensures happened { HappenedAtRules
        (at_source S.gives S.fails S.ended S.faults input.old input.new)
        (at_sink K.takes K.fails K.faults out.old out.new) result }
    ensures input_count { NoFall (S.faults input.old) (S.faults input.new) }
    ensures output_count { NoFall (K.faults out.old) (K.faults out.new) }
{
    match read_config(alloc, input) {
        Ok(config) => write_rules(alloc, &config, out),
        Err(end) => RulesEnd::Config(end),
    }
}

/// Writes the lines of the rules of a configuration.
fn write_rules<K: Sink>(alloc: Global, config: &Config, out: &mut K) -> RulesEnd
    requires { IsConfig config.now }
    ensures happened { WritesRules (at_sink K.takes K.fails K.faults out.old out.new) config.now.rules result }
    ensures count { NoFall (K.faults out.old) (K.faults out.new) }
{
    match rules_text(alloc, &config.rules) {
        Ok(text) => match write_all(out, &text) {
            Ok(()) => RulesEnd::Done,
            Err(_) => RulesEnd::Sink,
        },
        Err(Memory) => RulesEnd::Memory,
    }
}
