//! The steps of a row, played one after another.

use std::alloc::Global;
use std::str::SplitAsciiWhitespace;
use test_tools::{Fault, RowStep};

/// The state on which the steps of a row act.
pub trait Acts {
    /// Performs a step, and appends its result.
    fn act(&mut self, alloc: Global, step: RowStep<'_>, said: &mut String) -> Result<(), Fault>;
}

/// Performs the steps, and appends their results.
pub fn act_all<T: Acts>(
    alloc: Global,
    subject: &mut T,
    steps: SplitAsciiWhitespace<'_>,
    said: &mut String,
) -> Result<(), Fault> {
    for step in steps {
        subject.act(alloc, RowStep::of(step), said)?;
    }
    Ok(())
}
