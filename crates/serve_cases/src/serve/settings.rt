//! The settings of the rows, which are in a table of their own.

use oc_base::NodeId;
use std::alloc::Global;
use test_tools::{Fault, Row, RowFields, spelled_in};

/// A node of a configuration, and the scene before it.
#[derive(Drop)]
pub struct Setting {
    pub node: NodeId,
    /// The text of the configuration.
    pub config: Vec<u8>,
    /// The steps of the scene before.
    pub before: String,
}

impl Setting {
    /// The setting of this name in a table.
    pub fn find(alloc: Global, table: &str, name: &str) -> Result<Setting, Fault> {
        for line in table.lines() {
            if let Some(row) = Row::read(line) {
                if row.name == name {
                    return Setting::read(alloc, row.given, row.wanted);
                }
            }
        }
        Err(Fault::Field)
    }

    /// The setting of a row, which has the id of the node and the configuration.
    fn read(alloc: Global, given: &str, before: &str) -> Result<Setting, Fault> {
        let (node, config) = given.split_once(' ').unwrap_or((given, ""));
        Ok(Setting {
            node: RowFields::of(node, ' ').node()?,
            config: spelled_in(alloc, config)?,
            before: format!(in alloc; "{before}")?,
        })
    }
}
