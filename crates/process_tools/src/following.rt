//! A case of three nodes, of which one is killed.

use crate::asking::{ask, body_of, get_text, is_ok, publish_text};
use crate::node::{Home, end, free_port};
use std::time::Duration;
use std::{io, thread};

/// The path of the group, and the path that each node answers by itself, whatever its place.
const GROUP: &str = "/news/c";

const HERE: &str = "/news/c?here";

/// The bytes published before the kill, those published after it, and both.
const FIRST: &str = "some bytes, ";

const SECOND: &str = "and some more";

const BOTH: &str = "some bytes, and some more";

/// The greatest number of tries to find the published bytes at a node, and the time between two
/// tries.
const MOST_TRIES: u32 = 600;

const TRY_MILLIS: u64 = 50;

/// Starts three nodes, publishes, kills node 2 once it and node 3 have the published bytes,
/// publishes more, and starts node 2 again. Gives the node at which the bytes do not arrive, if
/// there is one.
pub fn follow_the_living(rt: &HostRuntime) -> io::Result<Option<String>> {
    let ports = [free_port(rt)?, free_port(rt)?, free_port(rt)?];
    let first = Home::of(rt, "first_of_three", 1, &ports)?;
    let second = Home::of(rt, "second_of_three", 2, &ports)?;
    let third = Home::of(rt, "third_of_three", 3, &ports)?;
    let source = first.start(rt)?;
    let other = third.start(rt)?;
    let seen = kill_between(rt, &first, &second, &third);
    end(source)?;
    end(other)?;
    seen
}

/// The same steps, once nodes 1 and 3 run.
fn kill_between(
    rt: &HostRuntime,
    first: &Home,
    second: &Home,
    third: &Home,
) -> io::Result<Option<String>> {
    if let Some(told) = publish_to_second(rt, first, second, third)? {
        return Ok(Some(told));
    }
    publish(rt, first, SECOND)?;
    if let Some(told) = missing(rt, third, BOTH)? {
        return Ok(Some(told));
    }
    let again = second.start(rt)?;
    let seen = missing(rt, second, BOTH);
    end(again)?;
    seen
}

/// Starts node 2, publishes, and kills node 2 once it and node 3 have the bytes.
fn publish_to_second(
    rt: &HostRuntime,
    first: &Home,
    second: &Home,
    third: &Home,
) -> io::Result<Option<String>> {
    let killed = second.start(rt)?;
    publish(rt, first, FIRST)?;
    let seen = missing(rt, second, FIRST);
    let other = missing(rt, third, FIRST);
    end(killed)?;
    match seen? {
        Some(told) => Ok(Some(told)),
        None => other,
    }
}

/// Publishes at the source. Whether the bytes were taken shows later at the nodes.
fn publish(rt: &HostRuntime, source: &Home, bytes: &str) -> io::Result<()> {
    ask(rt, source, publish_text(rt, GROUP, bytes)?.as_bytes())?;
    Ok(())
}

/// Waits until a node holds exactly these bytes of the group; gives a message if it never does.
fn missing(rt: &HostRuntime, home: &Home, wanted: &str) -> io::Result<Option<String>> {
    let text = get_text(rt, HERE)?;
    for _ in 0..MOST_TRIES {
        let reply = ask(rt, home, text.as_bytes())?;
        if is_ok(&reply) && body_of(&reply) == wanted.as_bytes() {
            return Ok(None);
        }
        thread::sleep(rt, Duration::from_millis(TRY_MILLIS));
    }
    Ok(Some(format!(in rt.alloc(); "node {} does not hold all", home.node)?))
}
