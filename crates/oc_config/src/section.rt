ghost use Rattle.std.specs.Prelude.{◌≡◌, Err, IfErr, option_map};
ghost use Rattle.toml.specs.View.{view, table_view};
ghost use Rattle.oc_config.specs.Values.{GivesBy, area_in, required, section_of, top, value_in};

use crate::config_key::ConfigKey;
use crate::fault::ConfigFault;
use crate::section_name::SectionName;
use crate::values::whole;
use oc_base::MAX_AREA;
use toml::{Table, Value};

/// A table of a configuration, and its place.
#[derive(Clone, Copy)]
pub(crate) struct Section<'a> {
    pub(crate) place: SectionName,
    pub(crate) table: &'a Table,
}

impl<'a> Section<'a> {
    /// The table of the whole text.
    pub(crate) fn top(table: &'a Table) -> Section<'a>
        ensures { section_of result ≡ top (table_view table.now) }
    {
        Section {
            place: SectionName::Top,
            table,
        }
    }

    /// The value of a key, if the table has it.
    pub(crate) fn value_at(&self, key: ConfigKey) -> Option<&'a Value>
        ensures { option_map (λ v. view v.now) result ≡ value_in key (section_of self.now) }
    {
        self.table.get(key.word())
    }

    /// The value of a key that the table must have.
    pub(crate) fn required(&self, key: ConfigKey) -> Result<&'a Value, ConfigFault>
        ensures said { GivesBy (λ v. view v.now) result (required key (section_of self.now)) }
        ensures missing { IfErr result (λ fault. required key (section_of self.now) ≡ Err fault) }
    {
        match self.value_at(key) {
            Some(value) => Ok(value),
            None => Err(ConfigFault::Missing(self.place, key)),
        }
    }

    /// The fault of a value that the key may not have.
    pub(crate) fn refuses(&self, key: ConfigKey) -> ConfigFault
        ensures { result ≡ ConfigFault.Value self.now.place key }
    {
        ConfigFault::Value(self.place, key)
    }

    /// The area of the table, if it has one.
    pub(crate) fn area(&self) -> Result<Option<u8>, ConfigFault>
        ensures { result ≡ area_in (section_of self.now) }
    {
        match self.value_at(ConfigKey::Area) {
            None => Ok(None),
            Some(value) => match whole(value, 0, u32::from(MAX_AREA)) {
                Some(area) => Ok(Some(area as u8)),
                None => Err(self.refuses(ConfigKey::Area)),
            },
        }
    }
}
