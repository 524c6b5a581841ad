ghost use Rattle.std.specs.Prelude.{◌≤◌};
ghost use Rattle.oc_io.specs.SourceView.{GivesFront, FailsBehind, IsEmptied, GivesFront-nothing, GivesFront-then, GivesFront-fails};

use oc_io::{Failed, MemSource, Source};

/// A source in memory that gives its bytes in pieces.
#[derive(Drop)]
pub struct Pieces {
    source: MemSource,
    /// The number of bytes of the present piece that have not come.
    left: usize,
    /// The length of each further piece in bytes.
    piece: usize,
    ghost some: { 1 ≤ piece },
}

impl Pieces {
    /// A source that gives a piece of this length first, and further ones of `piece` bytes.
    pub fn new(source: MemSource, first: usize, piece: usize) -> Pieces
        requires { 1 ≤ piece }
    {
        Pieces {
            source,
            left: first,
            piece,
        }
    }
}

impl Source for Pieces {
    ghost gives = { λ old bytes new. GivesFront old.source bytes new.source };

    ghost fails = { λ old bytes new. FailsBehind old.source bytes new.source };

    ghost ended = { λ pieces. IsEmptied pieces.source };

    ghost calls = { λ pieces. pieces.source.calls.made };

    ghost faults = { λ pieces. pieces.source.calls.faults };

    ghost gives_nothing = { λ pieces. GivesFront-nothing pieces.source };

    ghost gives_then = { λ a b c x y. GivesFront-then a.source b.source c.source x y };

    ghost gives_fails = { λ a b c x y. GivesFront-fails a.source b.source c.source x y };

    fn read(&mut self, buf: &mut [u8]) -> Result<usize, Failed> {
        if self.left == 0 {
            self.left = self.piece;
        }
        let most = self.left.min(buf.len());
        let count = self.source.read(&mut buf[..most])?;
        self.left -= count;
        Ok(count)
    }
}
