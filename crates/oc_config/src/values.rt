//! The values of a table, as they are read.

ghost use Rattle.std.specs.Prelude.{◌≡◌, ◌≤◌, Some, IfSome, IfOk, length, vec_len};
ghost use Rattle.toml.specs.View.{view, items_view};
ghost use Rattle.oc_base.specs.declared.limits.TheConstants.{MAX_NODES};
ghost use Rattle.oc_config.specs.Values.{whole_in, GivesTables, tables_in, tables_of, all_tables};

use crate::fault::ConfigFault;
use crate::section::Section;
use crate::section_name::Kind;
use std::alloc::Global;
use toml::Value;

/// The whole number from `least` to `most` that a value is.
pub(crate) fn whole(value: &Value, least: u32, most: u32) -> Option<u32>
    ensures said { result ≡ whole_in least most (view value.now) }
    ensures range { IfSome result (λ n. (least ≤ n) × (n ≤ most)) }
{
    let number = u32::try_from(value.as_integer()?).ok()?;
    if least <= number && number <= most {
        Some(number)
    } else {
        None
    }
}

/// The tables of an array that has from `least` to `most` of them and nothing else; `fault` where the
/// value is no such array.
pub(crate) fn tables<'a>(
    alloc: Global,
    value: &'a Value,
    kind: Kind,
    least: u32,
    most: u32,
    fault: ConfigFault,
) -> Result<Vec<Section<'a>>, ConfigFault>
    requires { most ≤ MAX_NODES }
    ensures said { GivesTables result (tables_in kind least most (view value.now)) fault }
    ensures count { IfOk result (λ v. (least ≤ vec_len v) × (vec_len v ≤ most)) }
{
    match value.as_array() {
        Some(values) => counted_tables(alloc, values, kind, least, most, fault),
        None => Err(fault),
    }
}

/// The tables that these values are, from `least` to `most` of them; `fault` where there are fewer or more,
/// or one of them is no table.
fn counted_tables<'a>(
    alloc: Global,
    values: &'a [Value],
    kind: Kind,
    least: u32,
    most: u32,
    fault: ConfigFault,
) -> Result<Vec<Section<'a>>, ConfigFault>
    requires { most ≤ MAX_NODES }
    ensures said { GivesTables result (tables_of kind least most (Some (items_view values.now))) fault }
    ensures count { IfOk result (λ v. (least ≤ vec_len v) × (vec_len v ≤ most)) }
{
    let count = values.len();
    if count < least as usize {
        return Err(fault);
    }
    if (most as usize) < count {
        return Err(fault);
    }
    all_tables(alloc, values, kind, fault)
}

/// The tables that these values are, numbered from 1; `fault` where one of them is no table.
fn all_tables<'a>(
    alloc: Global,
    values: &'a [Value],
    kind: Kind,
    fault: ConfigFault,
) -> Result<Vec<Section<'a>>, ConfigFault>
    requires { length values.now ≤ MAX_NODES }
    ensures said { GivesTables result (all_tables kind 1 (items_view values.now)) fault }
    ensures count { IfOk result (λ v. vec_len v ≡ length values.now) }
{
    let mut tables = Vec::new(alloc);
    for value in values {
        match value.as_table() {
            Some(table) => {
                let place = kind.place(tables.len() as u32 + 1);
                tables.push(Section { place, table })?;
            }
            None => return Err(fault),
        }
    }
    Ok(tables)
}
