//! The objects of a scene: the link with its events, step by step, an output, and the failing calls
//! of disks and of the output.

use crate::serve::steps::{MOST_STEPS, numbers_in, small_in, split_step};
use oc_base::Bytes;
use oc_io::{MemDisk, MemSink};
use oc_link::{Coming, ConnectionId, DialId, Happening, Look, Loss, MemLink, Step};
use std::alloc::Global;
use test_tools::{Fault, RowFields, spelled_in};

/// The capacity of an output in bytes, unless a scene gives one.
const ROOM: u32 = 40_000;

/// The script of a scene so far.
#[derive(Drop)]
struct Script {
    alloc: Global,
    steps: Vec<Step>,
    /// The number of connections so far.
    connections: u64,
    /// The connection that steps refer to.
    connection: u64,
    /// The dial that steps refer to.
    dial: u64,
    /// The number of bytes of a connection that come at a time; 0 for all.
    cut: usize,
    /// The time until the next step, in milliseconds.
    after: u64,
}

/// The link of a scene, and the number of its events.
///
/// - `come:TEXT` is a new connection, with the next number from 0, whose sending ends after these bytes; `part:TEXT` one
///   that does not end, and `broken:TEXT` one that fails. Of the last one, or that of the last `on:N`, `more:TEXT` are
///   further bytes, `last:TEXT` are further bytes and then its end, and `again:N` has its end told N times more. `cut:N` has
///   the bytes of connections come N at a time from there on.
/// - `room`, `gone` and `gave` report that the same connection has room, that it failed, that it
///   gave way.
/// - `reply:TEXT` is the reply to dial 0, or to that of the last `dial:N`; `failed:TEXT` is a reply
///   on which the dial fails after these bytes.
/// - `file:TEXT` has the look at the end of the turn before give this text as the configuration, and `away` fails that look.
/// - `quiet` is no event, and `fails` a failure of the link. `wait:N` lets N milliseconds pass
///   until the next event.
pub fn link_in(alloc: Global, scene: &str) -> Result<(MemLink, u32), Fault> {
    let mut script = Script {
        alloc,
        steps: Vec::new(alloc),
        connections: 0,
        connection: 0,
        dial: 0,
        cut: 0,
        after: 0,
    };
    let mut steps = RowFields::of(scene, '^');
    for _ in 0..MOST_STEPS {
        if steps.is_empty() {
            break;
        }
        let (word, said) = split_step(steps.text());
        script.take(word, said)?;
    }
    let Ok(count) = u32::try_from(script.steps.len()) else {
        return Err(Fault::Field);
    };
    Ok((MemLink::new(alloc, script.steps), count))
}

impl Script {
    /// Takes a step of a scene, if it is one of the link.
    fn take(&mut self, word: &str, said: &str) -> Result<(), Fault> {
        match word {
            "come" | "part" | "broken" => {
                self.connection = self.connections;
                self.connections = self.connections.saturating_add(1);
                self.comes(said, coming_of(word))
            }
            "more" | "last" => self.comes(said, coming_of(word)),
            "again" => self.comes_again(number_in(said)?),
            "reply" | "failed" => self.replies(said, coming_of(word)),
            "room" => self.put(Happening::Room(self.connection())),
            "gone" => self.put(Happening::Gone(self.connection(), Loss::Failed)),
            "gave" => self.put(Happening::Gone(self.connection(), Loss::GaveWay)),
            "file" => {
                let text = Bytes::of(spelled_in(self.alloc, said)?);
                self.put(Happening::Looks(Look::Text(text)))
            }
            "away" => self.put(Happening::Looks(Look::Failed)),
            "quiet" => self.put(Happening::Quiet),
            "fails" => self.put(Happening::Fails),
            _ => self.set(word, said),
        }
    }

    /// Takes a step that sets a value for the steps after it, if it is one.
    fn set(&mut self, word: &str, said: &str) -> Result<(), Fault> {
        match word {
            "on" => self.connection = number_in(said)?,
            "dial" => self.dial = number_in(said)?,
            "cut" => self.cut = RowFields::of(said, ',').small()? as usize,
            "wait" => self.after = number_in(said)?,
            _ => {}
        }
        Ok(())
    }

    /// The connection that steps refer to.
    fn connection(&self) -> ConnectionId {
        ConnectionId(self.connection)
    }

    /// Bytes come on the connection: at once, or piece by piece with the end after the last one.
    fn comes(&mut self, said: &str, coming: Coming) -> Result<(), Fault> {
        let bytes = spelled_in(self.alloc, said)?;
        if self.cut == 0 {
            return self.put_bytes(&bytes, coming);
        }
        for piece in bytes.chunks(self.cut.max(1)) {
            self.put_bytes(piece, Coming::Open)?;
        }
        self.put_bytes(&[], coming)
    }

    /// The end of the connection is reported `times` times.
    fn comes_again(&mut self, times: u64) -> Result<(), Fault> {
        for _ in 0..times {
            self.put_bytes(&[], Coming::Ended)?;
        }
        Ok(())
    }

    /// These bytes come on the connection, with this end.
    fn put_bytes(&mut self, bytes: &[u8], coming: Coming) -> Result<(), Fault> {
        let bytes = Bytes::of(bytes.to_vec(self.alloc)?);
        self.put(Happening::Comes(self.connection(), bytes, coming))
    }

    /// The dial gets this reply, with this end.
    fn replies(&mut self, said: &str, coming: Coming) -> Result<(), Fault> {
        let bytes = Bytes::of(spelled_in(self.alloc, said)?);
        self.put(Happening::Replies(DialId(self.dial), bytes, coming))
    }

    /// An event happens.
    fn put(&mut self, happening: Happening) -> Result<(), Fault> {
        let after = self.after;
        self.after = 0;
        Ok(self.steps.push(Step { after, happening })?)
    }
}

/// The end of a step's bytes.
fn coming_of(word: &str) -> Coming {
    match word {
        "come" | "last" | "reply" => Coming::Ended,
        "broken" | "failed" => Coming::Failed,
        _ => Coming::Open,
    }
}

/// The number in a step.
fn number_in(said: &str) -> Result<u64, Fault> {
    RowFields::of(said, ',').number()
}

/// The output of a scene: `sink:N,N` lists the calls that fail, and `output:N` gives the capacity
/// in bytes.
pub fn sink_in(alloc: Global, scene: &str) -> Result<MemSink, Fault> {
    let room = small_in(scene, "output", ROOM)?;
    Ok(MemSink::new(alloc, room as usize, numbers_in(alloc, scene, "sink")?)?)
}

/// An empty disk.
pub fn new_disk(alloc: Global) -> MemDisk {
    MemDisk::new(Vec::new(alloc))
}

/// Lets those calls of a disk fail that a scene lists after this word, counted from here.
pub fn fail_in(alloc: Global, scene: &str, word: &str, disk: &mut MemDisk) -> Result<(), Fault> {
    let calls = numbers_in(alloc, scene, word)?;
    disk.fail_at(calls);
    Ok(())
}
