//! Sequences of equal words.

use std::alloc::Global;
use test_tools::Fault;

/// Words, with consecutive equal ones counted.
#[derive(Drop)]
pub struct Runs {
    text: String,
    last: String,
    count: u32,
}

impl Runs {
    pub fn new(alloc: Global) -> Runs {
        Runs {
            text: String::new(alloc),
            last: String::new(alloc),
            count: 0,
        }
    }

    /// Puts the next words.
    pub fn put(&mut self, words: String) -> Result<(), Fault> {
        if self.count > 0 && self.last == words {
            self.count = self.count.saturating_add(1);
            return Ok(());
        }
        self.end()?;
        self.last = words;
        self.count = 1;
        Ok(())
    }

    /// Puts the last words with their count.
    fn end(&mut self) -> Result<(), Fault> {
        if self.count > 0 {
            let count = self.count;
            write!(self.text, " {count}*({})", self.last)?;
        }
        Ok(())
    }

    /// All words with their counts.
    pub fn finish(self) -> Result<String, Fault> {
        let mut runs = self;
        runs.end()?;
        Ok(runs.text)
    }
}
