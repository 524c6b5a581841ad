//! Keys that no table can have.

ghost use Rattle.std.specs.Prelude.{◌≡◌, option_map};
ghost use Rattle.std.specs.List.{list_any};
ghost use Rattle.std.specs.Str.{bytes_eq};
ghost use Rattle.oc_config.specs.Keys.{is_known, key_text, shown_key};
ghost use Rattle.oc_config.specs.Known.{all_known, keys_of, known_in, unknown_key};
ghost use Rattle.oc_config.specs.Values.{section_of, sections_of};

use crate::config_key::ConfigKey;
use crate::fault::ConfigFault;
use crate::key_name::KeyName;
use crate::section::Section;
use crate::section_name::SectionName;

/// Refuses the first of these tables that has a key which it cannot have.
pub(crate) fn check_all(sections: &[Section<'_>]) -> Result<(), ConfigFault>
    ensures { result ≡ all_known (sections_of sections.now) }
{
    for section in sections {
        check(section)?;
    }
    Ok(())
}

/// Refuses a table that has a key which it cannot have.
pub(crate) fn check(section: &Section<'_>) -> Result<(), ConfigFault>
    ensures { result ≡ known_in (section_of section.now) }
{
    match unknown_key(section) {
        None => Ok(()),
        Some(name) => Err(ConfigFault::Unknown(section.place, name)),
    }
}

/// The least key, by its bytes, that the table cannot have.
fn unknown_key(section: &Section<'_>) -> Option<KeyName>
    ensures { result ≡ option_map shown_key (unknown_key section.now.place (keys_of (section_of section.now).members)) }
{
    for key in section.table.keys() {
        if !is_known(section.place, key.as_bytes()) {
            return Some(KeyName::shown(key.as_bytes()));
        }
    }
    None
}

/// Whether the table at this place can have this key.
fn is_known(place: SectionName, text: &[u8]) -> bool
    ensures { result ≡ is_known place text.now }
{
    is_one_of(place.keys(), text)
}

/// Whether a text is one of these keys.
fn is_one_of(keys: &[ConfigKey], text: &[u8]) -> bool
    ensures { result ≡ list_any (λ key. bytes_eq text.now (key_text key)) keys.now }
{
    keys.iter().any(|key| is_key(*key, text))
}

fn is_key(key: ConfigKey, text: &[u8]) -> bool
    ensures { result ≡ bytes_eq text.now (key_text key) }
{
    text == key.word().as_bytes()
}
