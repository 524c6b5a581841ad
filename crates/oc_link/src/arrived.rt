ghost use Rattle.std.specs.Prelude.{◌≡◌, ◌+◌, ◌≤◌, ◌<◌, length, min, take, IfOk, OnErr};
ghost use Rattle.oc_io.specs.Faults.{NoFall, Rose};
ghost use Rattle.oc_link.specs.ArrivedView.{arrived, GivesFront, FailsBehind, IsAtEnd, GivesFront-nothing, GivesFront-then, GivesFront-fails};

use crate::event::Coming;
use oc_io::{Failed, Source};
use std::marker::Model;

/// The bytes that an event lends, as a source. At their end a call fails if they ended by a failure; otherwise the
/// source ends there.
#[derive(Drop)]
pub struct Arrived<'a> {
    left: &'a [u8],
    fails: bool,
    faults: u64,
}

impl<'a> Model for Arrived<'a> {
    ghost use Rattle.oc_link.specs.ArrivedView.{ArrivedView};

    ghost Value = { ArrivedView };

    ghost view = { λ s. record { left = s.left.now; fails = s.fails; faults = s.faults } };
}

impl<'a> Arrived<'a> {
    /// A source of these bytes, with this end.
    pub fn new(bytes: &'a [u8], coming: Coming) -> Arrived<'a>
        ensures { result ≡ arrived bytes.now coming }
    {
        Arrived {
            left: bytes,
            fails: coming.has_failed(),
            faults: 0,
        }
    }

    /// The number of bytes left.
    pub fn left(&self) -> usize
        ensures { result ≡ length self.now.left }
    {
        self.left.len()
    }
}

impl Source for Arrived<'_> {
    ghost gives = { GivesFront };

    ghost fails = { FailsBehind };

    ghost ended = { IsAtEnd };

    ghost calls = { λ s. 0 };

    ghost faults = { λ s. s.faults };

    ghost gives_nothing = { GivesFront-nothing };

    ghost gives_then = { GivesFront-then };

    ghost gives_fails = { GivesFront-fails };

    fn read(&mut self, buf: &mut [u8]) -> Result<usize, Failed> {
        if self.left.is_empty() && self.fails {
            self.faults = self.faults.saturating_add(1);
            return Err(Failed);
        }
        let left = self.left;
        let count = left.len().min(buf.len());
        buf[..count].copy_from_slice(&left[..count]);
        self.left = &left[count..];
        Ok(count)
    }
}
