//! The steps of a scene, with `^` between them, such as `come:TEXT` or `seconds:5,7`: a word, and
//! its value after a `:`.

use std::alloc::Global;
use test_tools::{Fault, RowFields};

/// An upper bound on the steps of a scene.
pub const MOST_STEPS: u32 = 200;

/// The value of the first step with this word, or nothing.
pub fn said_by<'a>(scene: &'a str, word: &str) -> Option<&'a str> {
    let mut steps = RowFields::of(scene, '^');
    for _ in 0..MOST_STEPS {
        if steps.is_empty() {
            break;
        }
        if let Some(said) = said_in(steps.text(), word) {
            return Some(said);
        }
    }
    None
}

/// The value of a step, if it has this word.
fn said_in<'a>(step: &'a str, word: &str) -> Option<&'a str> {
    let (first, said) = split_step(step);
    if first == word { Some(said) } else { None }
}

/// The word of a step, and its value.
pub fn split_step(step: &str) -> (&str, &str) {
    step.split_once(':').unwrap_or((step, ""))
}

/// The numbers of the step with this word, with commas between them.
pub fn numbers_in(alloc: Global, scene: &str, word: &str) -> Result<Vec<u64>, Fault> {
    RowFields::of(said_by(scene, word).unwrap_or(""), ' ').numbers(alloc)
}

/// The number of the step with this word, or `otherwise` if there is no such step.
pub fn small_in(scene: &str, word: &str, otherwise: u32) -> Result<u32, Fault> {
    match said_by(scene, word) {
        Some(said) => RowFields::of(said, ',').small(),
        None => Ok(otherwise),
    }
}
