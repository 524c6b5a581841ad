ghost use Rattle.std.specs.Prelude.{◌≡◌, [], ◌++◌, refl};
ghost use Rattle.oc_io.specs.SourceView.{fronts};

use oc_io::{Failed, Source};

/// Bytes that lie in memory, as a source of which no call fails.
#[derive(Drop)]
pub(crate) struct Rest<'a> {
    /// The bytes that were not taken yet.
    pub(crate) left: &'a [u8],
}

impl<'a> Rest<'a> {
    pub(crate) fn of(left: &'a [u8]) -> Rest<'a>
        ensures { result.left.now ≡ left.now }
    {
        Rest { left }
    }
}

impl Source for Rest<'_> {
    ghost gives = { λ old bytes new. old.left.now ≡ bytes ++ new.left.now };

    ghost fails = { λ old bytes new. ⊥ };

    ghost ended = { λ s. s.left.now ≡ [] };

    ghost calls = { λ s. 0 };

    ghost faults = { λ s. 0 };

    ghost gives_nothing = { λ s. refl };

    ghost gives_then = { λ a b c. fronts a.left.now b.left.now c.left.now };

    ghost gives_fails = { λ a b c x y p q. q };

    fn read(&mut self, buf: &mut [u8]) -> Result<usize, Failed> {
        let count = self.left.len().min(buf.len());
        let (front, rest) = self.left.split_at(count);
        buf[..count].copy_from_slice(front);
        self.left = rest;
        Ok(count)
    }
}
