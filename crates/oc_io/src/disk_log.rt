ghost use Rattle.std.specs.Prelude.{◌≡◌, ◌+◌, ◌-◌, ◌<◌, ◌≤◌, [], ◌∷◌, length, max, OnOk, OnErr};
ghost use Rattle.oc_io.specs.Calls.{Wrote, Synced, Fits, blotted, crashed};

use std::alloc::{AllocError, Global};
use std::marker::Model;

/// A successful call of `write_at` or `sync`, as the record keeps it.
#[derive(Clone, Copy, Debug)]
pub enum LoggedCall {
    /// A write: its offset, the number of bytes replaced, and the number of bytes written. The first number
    /// is smaller where the write went past the end.
    Write {
        at: usize,
        over: usize,
        count: usize,
    },
    Sync,
}

/// The successful calls on a disk in memory, with the bytes that each replaced. One pool keeps these bytes,
/// so that a call takes no memory besides that of `reserve`.
///
/// A contract sees the calls, newest first, and the numbers of further bytes and calls for which there is room.
#[derive(Debug, Drop)]
pub struct DiskLog {
    steps: Vec<LoggedCall>,
    pool: Vec<u8>,
    room: usize,
    calls: usize,
}

impl Model for DiskLog {
    ghost use Rattle.std.specs.Prelude.{◌+◌, ◌≤◌, reverse, vec_len, vec_capacity};
    ghost use Rattle.oc_io.specs.DiskLogView.{DiskLogView};

    ghost Value = { DiskLogView };

    ghost use Rattle.oc_io.specs.DiskLog.{told};

    ghost view = { λ l. record { past = told (reverse l.steps.items) l.pool.items; room = l.room; calls = l.calls } };

    ghost invariant = { λ l. (vec_len l.pool + l.room ≤ vec_capacity l.pool) × (vec_len l.steps + l.calls ≤ vec_capacity l.steps) };
}

impl DiskLog {
    /// An empty record without room.
    pub fn new(alloc: Global) -> DiskLog
        ensures { result ≡ record { past = []; room = 0; calls = 0 } }
    {
        DiskLog {
            steps: Vec::new(alloc),
            pool: Vec::new(alloc),
            room: 0,
            calls: 0,
        }
    }

    /// The number of bytes that may still be written.
    pub fn room(&self) -> usize
        ensures { result ≡ self.now.room }
    {
        self.room
    }

    /// The number of calls that may still be made.
    pub fn calls(&self) -> usize
        ensures { result ≡ self.now.calls }
    {
        self.calls
    }

    /// Makes room for at least `bytes` further bytes and `calls` further calls; it never makes the room smaller.
    pub fn reserve(&mut self, bytes: usize, calls: usize) -> Result<(), AllocError>
        ensures ok { OnOk result
            (self.new ≡ record self.old { room = max self.old.room bytes; calls = max self.old.calls calls }) }
        ensures err { OnErr result (self.new ≡ self.old) }
    {
        self.pool.reserve(self.room.max(bytes))?;
        self.steps.reserve(self.calls.max(calls))?;
        self.room = self.room.max(bytes);
        self.calls = self.calls.max(calls);
        Ok(())
    }

    /// Notes a write of `count` bytes from the offset `at` on, which replaced the bytes `over`. These are
    /// fewer than `count` where the write goes past the end.
    pub fn note_write(&mut self, at: usize, over: &[u8], count: usize)
        requires over { length over.now ≤ count }
        requires room { count ≤ self.old.room }
        requires calls { 0 < self.old.calls }
        ensures { self.new ≡ record {
          past = Wrote at over.now count ∷ self.old.past;
          room = self.old.room - count;
          calls = self.old.calls - 1;
        } }
    {
        self.pool.extend_from_slice(over).unwrap();
        self.steps
            .push(LoggedCall::Write {
                at,
                over: over.len(),
                count,
            })
            .unwrap();
        self.room -= count;
        self.calls -= 1;
    }

    /// Notes a sync.
    pub fn note_sync(&mut self)
        requires calls { 0 < self.old.calls }
        ensures { self.new ≡ record self.old { past = Synced ∷ self.old.past; calls = self.old.calls - 1 } }
    {
        self.steps.push(LoggedCall::Sync).unwrap();
        self.calls -= 1;
    }

    /// Sets each byte that was written since the last sync to `image`.
    pub fn blot(self, bytes: &mut [u8], image: u8)
        requires { Fits bytes.old self.past }
        ensures { bytes.new ≡ crashed image self.past bytes.old }
    {
        let mut steps = self.steps;
        while let Some(step) = steps.pop() {
            match step {
                LoggedCall::Write { at, count, .. } => fill(bytes, at, count, image),
                LoggedCall::Sync => return,
            }
        }
    }
}

/// Sets each of the `count` bytes from the offset `at` on to `image`.
fn fill(bytes: &mut [u8], at: usize, count: usize, image: u8)
    requires { at + count ≤ length bytes.old }
    ensures { bytes.new ≡ blotted at count image bytes.old }
{
    bytes[at..at + count].fill(image);
}
