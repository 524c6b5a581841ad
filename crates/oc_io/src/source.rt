ghost use Rattle.std.specs.Prelude.{◌≡◌, ℕ, ◌+◌, ◌<◌, ◌≤◌, List, [], ◌++◌, length, take, IfOk, OnErr};
ghost use Rattle.oc_io.specs.Faults.{NoFall, Rose};

use crate::fault::Failed;

/// A giver of bytes: a file, a connection, standard input, or a list in memory.
pub trait Source {
    /// The step from the old source to the new one gave these bytes, and nothing else happened.
    ghost gives: { Self → List ℕ → Self → Type 0 };

    /// The step from the old source to the new one gave these bytes, and then a call failed.
    ghost fails: { Self → List ℕ → Self → Type 0 };

    /// The end: no further bytes come.
    ghost ended: { Self → Type 0 };

    /// The number of calls so far, or 0 for a source that does not tell it.
    ghost calls: { Self → ℕ };

    /// The number of failed calls so far.
    ghost faults: { Self → ℕ };

    /// Fills a prefix of the buffer and answers its length in bytes. 0 for a non-empty buffer means the
    /// end.
    fn read(&mut self, buf: &mut [u8]) -> Result<usize, Failed>
        ensures within { IfOk result (λ n. n ≤ length buf.old) }
        ensures gives { IfOk result (λ n. gives self.old (take n buf.new) self.new) }
        ensures fails { OnErr result (fails self.old [] self.new) }
        ensures end { IfOk result (λ n. n ≡ 0 → 0 < length buf.old → ended self.new) }
        ensures turn { calls self.new ≤ calls self.old + 1 }
        ensures count { NoFall (faults self.old) (faults self.new) }
        ensures cause { OnErr result (Rose (faults self.old) (faults self.new)) };

    ghost gives_nothing: { (s : Self) → gives s [] s };

    ghost gives_then: { (a b c : Self) (x y : List ℕ) → gives a x b → gives b y c → gives a (x ++ y) c };

    ghost gives_fails: { (a b c : Self) (x y : List ℕ) → gives a x b → fails b y c → fails a (x ++ y) c };
}
