//! Turns one after another, with the dials and the probes of a node.

use crate::serve::outcome::{Part, words_of};
use crate::serve::settings::Setting;
use crate::serve::table::Scenes;
use std::alloc::Global;
use test_tools::Fault;

/// The words of a row: the end of the run, the lines, the pieces given to each connection and its
/// further use, the bytes written on each dial, and the lines told to people.
pub struct TurnScenes;

impl Scenes for TurnScenes {
    fn answer(alloc: Global, setting: &Setting, scene: &str) -> Result<String, Fault> {
        let parts = [
            Part::End(" > "),
            Part::Lines,
            Part::Pieces,
            Part::Dialled,
            Part::Told,
        ];
        words_of(alloc, setting, scene, &parts)
    }
}
