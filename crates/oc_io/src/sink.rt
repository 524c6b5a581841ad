ghost use Rattle.std.specs.Prelude.{◌≡◌, ℕ, ◌+◌, ◌<◌, ◌≤◌, List, [], ◌++◌, length, take, IfOk, OnErr};
ghost use Rattle.oc_io.specs.Faults.{NoFall, Rose};

use crate::fault::Failed;

/// A taker of bytes: a file, a connection, standard output, or a list in memory.
pub trait Sink {
    /// The step from the old sink to the new one took these bytes, and nothing else happened.
    ghost takes: { Self → List ℕ → Self → Type 0 };

    /// The step from the old sink to the new one took these bytes, and then a call failed.
    ghost fails: { Self → List ℕ → Self → Type 0 };

    /// The number of calls so far, or 0 for a sink that does not tell it.
    ghost calls: { Self → ℕ };

    /// The number of failed calls so far.
    ghost faults: { Self → ℕ };

    /// Takes a prefix of these bytes and answers its length in bytes. A sink that takes none of a
    /// non-empty piece counts that as a fault and answers `Failed`.
    fn write(&mut self, bytes: &[u8]) -> Result<usize, Failed>
        ensures within { IfOk result (λ n. n ≤ length bytes.now) }
        ensures takes { IfOk result (λ n. takes self.old (take n bytes.now) self.new) }
        ensures some { IfOk result (λ n. 0 < length bytes.now → 0 < n) }
        ensures fails { OnErr result (fails self.old [] self.new) }
        ensures turn { calls self.new ≤ calls self.old + 1 }
        ensures count { NoFall (faults self.old) (faults self.new) }
        ensures cause { OnErr result (Rose (faults self.old) (faults self.new)) };

    ghost takes_nothing: { (s : Self) → takes s [] s };

    ghost takes_then: { (a b c : Self) (x y : List ℕ) → takes a x b → takes b y c → takes a (x ++ y) c };

    ghost takes_fails: { (a b c : Self) (x y : List ℕ) → takes a x b → fails b y c → fails a (x ++ y) c };
}
