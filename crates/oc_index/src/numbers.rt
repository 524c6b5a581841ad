//! The index of a net.

ghost use Rattle.std.specs.Prelude.{◌≡◌, ◌+◌, ◌<◌, ◌^◌, [], OnErr, OnOk};
ghost use Rattle.oc_index.specs.Index.{IsIndex, IsSame, IsWith, least_with};

use oc_base::Memory;
use std::alloc::Global;
use std::collections::HashMap;
use std::marker::Model;

/// The least number of a message for each hash. Contracts see the entries, and the number of
/// messages indexed.
#[derive(Drop)]
pub(crate) struct Numbers {
    /// The least number of a message, by its hash.
    least: HashMap<u64, u64>,
    /// The number of messages indexed, which are those with the numbers from 1 to this one.
    count: u64,
}

impl Model for Numbers {
    ghost use Rattle.oc_index.specs.Index.{NumbersView};

    ghost Value = { NumbersView };

    ghost view = { λ n. record { entries = n.least.entries; count = n.count } };
}

impl Numbers {
    /// An index without messages. Takes no memory.
    pub fn new(alloc: Global) -> Numbers
        ensures { IsIndex [] result }
    {
        Numbers {
            least: HashMap::new(alloc),
            count: 0,
        }
    }

    /// The next number: one more than the number of messages indexed.
    pub fn next(&self) -> u64
        requires { self.now.count + 1 < 2 ^ 64 }
        ensures { result ≡ self.now.count + 1 }
    {
        self.count + 1
    }

    /// The least number of a message with this hash, if one was indexed.
    pub fn least(&self, hash: u64) -> Option<u64>
        ensures { result ≡ least_with self.now hash }
    {
        self.least.get(&hash).copied()
    }

    /// Indexes the next message, which has this hash.
    pub fn put(&mut self, hash: u64) -> Result<(), Memory>
        requires { self.old.count + 1 < 2 ^ 64 }
        ensures ok { OnOk result (IsWith self.old hash self.new) }
        ensures err { OnErr result (IsSame self.old self.new) }
    {
        let number = self.count + 1;
        if self.least.get(&hash).is_none() {
            self.least.insert(hash, number)?;
        }
        self.count = number;
        Ok(())
    }
}
