//! A node that serves, and runs of the program against it.

use crate::asking::{ask, publish_text};
use crate::node::{Home, end};
use crate::playing::{Ports, play_rows};
use crate::talking::play_talks;
use std::io;

/// Plays the rows of `served.txt` with a node that holds five bytes of one group, and three of
/// another that is sealed; then those of `talks.txt`, conversations with it.
pub fn play_served(rt: &HostRuntime) -> io::Result<()> {
    let home = Home::new(rt, "served")?;
    let node = home.start(rt)?;
    play_beside(rt, &home)?;
    end(node)
}

/// Plays the rows once the groups are published.
fn play_beside(rt: &HostRuntime, home: &Home) -> io::Result<()> {
    publish(rt, home, "/news/a", "hello")?;
    publish(rt, home, "/news/b", "bye")?;
    publish(rt, home, "/news/b?seal", "")?;
    play_rows(rt, "served.txt", Ports::only(home.port))?;
    play_talks(rt, home, "talks.txt")
}

/// Publishes bytes, or seals a group. The rows show whether the node took them.
fn publish(rt: &HostRuntime, home: &Home, path: &str, bytes: &str) -> io::Result<()> {
    ask(rt, home, publish_text(rt, path, bytes)?.as_bytes())?;
    Ok(())
}
