//! The turns of a running node.

mod endings;
mod failures;
mod objects;
mod outcome;
mod requests;
mod running;
mod runs;
mod settings;
mod steps;
mod table;
mod turns;

use std::io;
use table::play_table;
use test_tools::read_table;

/// The folder of the tables.
const FOLDER: &str = "serve";

/// Plays the tables, one after another.
pub fn play(rt: &HostRuntime) -> io::Result<()> {
    let settings = read_table(rt, FOLDER, "settings")?;
    let settings = settings.as_str();
    play_table::<requests::RequestScenes, _>(rt, settings, "requests")?;
    play_table::<endings::EndingScenes, _>(rt, settings, "endings")?;
    play_table::<turns::TurnScenes, _>(rt, settings, "turns")?;
    play_table::<failures::FailureScenes, _>(rt, settings, "failures")
}
