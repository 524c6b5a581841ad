ghost use Rattle.std.specs.Prelude.{◌≡◌, ◌<◌, [], length};
ghost use Rattle.oc_probe.specs.Rates.{with_rate, IsMedian};

use std::marker::Model;

/// The number of rates kept of a peer.
pub const KEPT: usize = 5;

/// The last rates of a peer, oldest first.
#[derive(Debug, Drop)]
pub(crate) struct Recent {
    rates: [u64; KEPT],
    count: usize,
}

impl Model for Recent {
    ghost use Rattle.std.specs.Prelude.{ℕ, ◌≤◌, List, take};
    ghost use Rattle.oc_probe.specs.declared.recent.TheConstants.{KEPT};

    ghost Value = { List ℕ };

    ghost view = { λ r. take r.count r.rates };

    ghost invariant = { λ r. r.count ≤ KEPT };
}

impl Recent {
    /// Begins without rates.
    pub(crate) fn new() -> Recent
        ensures { result ≡ [] }
    {
        Recent {
            rates: [0; KEPT],
            count: 0,
        }
    }

    /// Keeps another rate, and drops the oldest if there are more than `KEPT`.
    pub(crate) fn put(&mut self, rate: u64)
        ensures { self.new ≡ with_rate self.old rate }
    {
        if self.count < KEPT {
            self.rates[self.count] = rate;
            self.count += 1;
        } else {
            self.rates.rotate_left(1);
            self.rates[KEPT - 1] = rate;
        }
    }

    /// The median of the rates: the one in the middle, or the lower of the two there.
    pub(crate) fn median(&self) -> u64
        requires { 0 < length self.now }
        ensures { IsMedian self.now result }
    {
        let mut rates = self.rates;
        let kept = &mut rates[..self.count];
        let (_, median, _) = kept.select_nth_unstable((self.count - 1) / 2);
        *median
    }
}
