//! The outcome of a scene.

use crate::serve::objects::{fail_in, link_in, new_disk, sink_in};
use crate::serve::running::{Play, run};
use crate::serve::settings::Setting;
use crate::serve::steps::{said_by, small_in};
use oc_io::{MemDisk, MemSink};
use oc_keep::Files;
use oc_link::{Call, ConnectionId, LinkEvent, MemLink, given};
use oc_service::{Log, NodeEnd, Ran, Site};
use std::alloc::Global;
use test_tools::{Fault, put_spelled};

/// An upper bound on the connections of a scene.
const MOST_CONNECTIONS: u64 = 100;

/// The outcome of a scene: the end of the node's run, and its site.
type SceneEnd = Ran<MemDisk, MemLink, MemSink>;

/// The outcome of a scene in a setting, on new files.
fn outcome_of(alloc: Global, setting: &Setting, scene: &str) -> Result<SceneEnd, Fault> {
    let files = Files {
        control: new_disk(alloc),
        alternate: new_disk(alloc),
        content: new_disk(alloc),
    };
    let before = setting.before.as_str();
    if before.is_empty() {
        return live(alloc, setting, scene, files);
    }
    let lived = live(alloc, setting, before, files)?;
    live(alloc, setting, scene, files_of(lived))
}

/// The files that an outcome leaves.
fn files_of(outcome: SceneEnd) -> Files<MemDisk> {
    let Ran { end: _, site } = outcome;
    let Site {
        files,
        link: _,
        sink: _,
    } = site;
    files
}

/// Runs the node of these files through a scene: `turns:N` turns, or one for each event if that
/// step is absent, with probes if there is a step `probes`.
fn live(
    alloc: Global,
    setting: &Setting,
    scene: &str,
    files: Files<MemDisk>,
) -> Result<SceneEnd, Fault> {
    let mut files = files;
    fail_in(alloc, scene, "control", &mut files.control)?;
    fail_in(alloc, scene, "alternate", &mut files.alternate)?;
    fail_in(alloc, scene, "content", &mut files.content)?;
    let (link, count) = link_in(alloc, scene)?;
    let play = Play {
        me: setting.node,
        turns: small_in(scene, "turns", count)?,
        probes: said_by(scene, "probes").is_some(),
        log: log_in(scene),
    };
    let site = Site {
        files,
        link,
        sink: sink_in(alloc, scene)?,
    };
    run(alloc, &setting.config, play, site)
}

/// The form in which the node logs its inputs: with a step `brief`, lines for people; with a step
/// `record`, a record.
fn log_in(scene: &str) -> Log {
    if said_by(scene, "brief").is_some() {
        Log::Brief
    } else if said_by(scene, "record").is_some() {
        Log::Record
    } else {
        Log::Inputs
    }
}

/// The parts of an outcome that the words of a row have.
#[derive(Clone, Copy)]
pub enum Part<'a> {
    /// The end of the node's run, with this after it.
    End(&'a str),
    /// The lines.
    Lines,
    /// The lines without those of ticks.
    Deeds,
    /// The bytes given to each connection.
    Written,
    /// The pieces given to each connection, and its further use.
    Pieces,
    /// The bytes written on each dial.
    Dialled,
    /// The lines told to the people who run the node.
    Told,
}

/// The words of the outcome of a scene: these parts, one after another.
pub fn words_of(
    alloc: Global,
    setting: &Setting,
    scene: &str,
    parts: &[Part<'_>],
) -> Result<String, Fault> {
    let outcome = outcome_of(alloc, setting, scene)?;
    words_in(alloc, &outcome, parts)
}

/// Both the words of these parts, and those of others.
pub fn both_words_of(
    alloc: Global,
    setting: &Setting,
    scene: &str,
    parts: &[Part<'_>],
    others: &[Part<'_>],
) -> Result<(String, String), Fault> {
    let outcome = outcome_of(alloc, setting, scene)?;
    Ok((
        words_in(alloc, &outcome, parts)?,
        words_in(alloc, &outcome, others)?,
    ))
}

fn words_in(alloc: Global, outcome: &SceneEnd, parts: &[Part<'_>]) -> Result<String, Fault> {
    let mut said = String::new(alloc);
    for part in parts {
        put_part(alloc, &mut said, outcome, *part)?;
    }
    Ok(said)
}

fn put_part(
    alloc: Global,
    said: &mut String,
    outcome: &SceneEnd,
    part: Part<'_>,
) -> Result<(), Fault> {
    match part {
        Part::End(behind) => {
            put_end(said, outcome)?;
            Ok(said.push_str(behind)?)
        }
        Part::Lines => put_spelled(said, outcome.site.sink.text()),
        Part::Deeds => put_deeds(said, outcome),
        Part::Written => put_written(alloc, said, outcome),
        Part::Pieces => put_pieces(said, outcome),
        Part::Dialled => put_dialled(said, outcome),
        Part::Told => put_told(said, outcome),
    }
}

/// Appends the end of the node's run.
fn put_end(said: &mut String, outcome: &SceneEnd) -> Result<(), Fault> {
    match outcome.end {
        NodeEnd::Load(error) => Ok(write!(said, "load {error:?}")?),
        NodeEnd::Turned(end) => Ok(write!(said, "{end:?}")?),
    }
}

/// Puts the lines without those of ticks.
fn put_deeds(said: &mut String, outcome: &SceneEnd) -> Result<(), Fault> {
    for line in outcome
        .site
        .sink
        .text()
        .split_inclusive(|byte| *byte == b'\n')
    {
        if !line.starts_with(b"tick ") {
            put_spelled(said, line)?;
        }
    }
    Ok(())
}

/// Appends the bytes given to each connection, with a `>` before them.
fn put_written(alloc: Global, said: &mut String, outcome: &SceneEnd) -> Result<(), Fault> {
    let calls = calls_of(outcome)?;
    for number in 0..MOST_CONNECTIONS {
        if !has_come(calls, ConnectionId(number)) {
            break;
        }
        said.push_str(" > ")?;
        let text = given(alloc, calls, ConnectionId(number))?;
        put_spelled(said, &text)?;
    }
    Ok(())
}

/// Appends the pieces given to each connection and its further use, with a `>` before them.
fn put_pieces(said: &mut String, outcome: &SceneEnd) -> Result<(), Fault> {
    let calls = calls_of(outcome)?;
    for number in 0..MOST_CONNECTIONS {
        if !has_come(calls, ConnectionId(number)) {
            break;
        }
        said.push_str(" >")?;
        for call in calls {
            put_call(said, call, ConnectionId(number))?;
        }
    }
    Ok(())
}

/// Appends the bytes that a call gave a connection, or its effect on it.
fn put_call(said: &mut String, call: &Call, connection: ConnectionId) -> Result<(), Fault> {
    match call {
        Call::Give(to, bytes) if *to == connection => {
            said.push(' ')?;
            put_spelled(said, bytes.items())
        }
        Call::Finish(of, ending) if *of == connection => {
            Ok(said.push_str(if ending.keeps { " KEPT" } else { " WHOLE" })?)
        }
        Call::BreakOff(of) if *of == connection => Ok(said.push_str(" BROKEN")?),
        _ => Ok(()),
    }
}

/// The calls on the link.
fn calls_of(outcome: &SceneEnd) -> Result<&[Call], Fault> {
    match outcome.site.link.calls() {
        Some(calls) => Ok(calls),
        None => Err(Fault::Memory),
    }
}

/// Whether a connection came.
fn has_come(calls: &[Call], connection: ConnectionId) -> bool {
    calls.iter().any(|call| comes_by(call, connection))
}

fn comes_by(call: &Call, connection: ConnectionId) -> bool {
    match call {
        Call::Next(LinkEvent::Request(arrival), _) => arrival.connection == connection,
        _ => false,
    }
}

/// Appends the bytes written on each dial, with a `@` before them.
fn put_dialled(said: &mut String, outcome: &SceneEnd) -> Result<(), Fault> {
    for call in calls_of(outcome)? {
        if let Call::Dial(_, _, text) = call {
            said.push_str(" @ ")?;
            put_spelled(said, text.items())?;
        }
    }
    Ok(())
}

/// Appends the lines told to the people who run the node, with a `!` before each.
fn put_told(said: &mut String, outcome: &SceneEnd) -> Result<(), Fault> {
    for call in calls_of(outcome)? {
        if let Call::Report(line) = call {
            said.push_str(" ! ")?;
            put_spelled(said, line.items())?;
        }
    }
    Ok(())
}
