//! Scenes in which each call of an object fails in turn.

use crate::serve::outcome::{Part, words_of};
use crate::serve::runs::Runs;
use crate::serve::settings::Setting;
use crate::serve::table::Scenes;
use std::alloc::Global;
use test_tools::{Fault, RowFields};

/// The words of a row: the number of consecutive failures with the same end and lines, and those.
pub struct FailureScenes;

impl Scenes for FailureScenes {
    fn answer(alloc: Global, setting: &Setting, given: &str) -> Result<String, Fault> {
        let mut runs = Runs::new(alloc);
        put_all(alloc, setting, given, &mut runs)?;
        runs.finish()
    }
}

/// Puts the words of the scene as each call of its object fails.
fn put_all(alloc: Global, setting: &Setting, given: &str, runs: &mut Runs) -> Result<(), Fault> {
    let (object, rest) = given.split_once(' ').unwrap_or((given, ""));
    let (calls, scene) = rest.split_once(' ').unwrap_or((rest, ""));
    let calls = RowFields::of(calls, ' ').small()?;
    for call in 1..calls.saturating_add(1) {
        let scene = format!(in alloc; "{object}:{call} ^ {scene}")?;
        let parts = [Part::End(": "), Part::Lines];
        runs.put(words_of(alloc, setting, scene.as_str(), &parts)?)?;
    }
    Ok(())
}
