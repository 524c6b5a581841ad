//! Playing of the rows.

use crate::case::{Case, CommandLine};
use crate::following::follow_the_living;
use crate::killing::kill_often;
use crate::node::free_port;
use crate::peering::play_peers;
use crate::serving::play_served;
use crate::starting::program;
use std::alloc::{AllocError, Global};
use std::fs::{File, OpenOptions};
use std::process::{Child, Command, Output, Stdio};
use std::{fs, io};

/// The files of a node.
const NODE_FILES: [&str; 3] = ["control.log", "control.alt", "content.log"];

/// The ports that rows name.
#[derive(Clone, Copy)]
pub struct Ports {
    /// The port in place of `PORT`: that of a node, or one at which nobody listens.
    pub port: u16,
    /// The port in place of `PEER`: that of a peer, if there is one.
    pub peer: Option<u16>,
}

impl Ports {
    /// A port for `PORT`, and no peer.
    pub fn only(port: u16) -> Ports {
        Ports { port, peer: None }
    }
}

/// Plays the cases, one after another.
pub fn play(rt: &HostRuntime) -> io::Result<()> {
    play_rows(rt, "runs.txt", Ports::only(free_port(rt)?))?;
    play_served(rt)?;
    play_peers(rt, "peers.txt")?;
    tell(
        rt,
        "three nodes of which one is killed",
        follow_the_living(rt),
    )?;
    tell(rt, "fifty kills lose nothing", kill_often(rt))
}

/// Plays the rows of a table, and prints a line for each.
pub fn play_rows(rt: &HostRuntime, table: &str, ports: Ports) -> io::Result<()> {
    let rows = with_ports(rt, table, ports)?;
    for row in rows.lines() {
        if let Some(case) = Case::read(row) {
            tell(rt, case.name, play_case(rt, &case, ports))?;
        }
    }
    Ok(())
}

/// Prints the line of a case: the difference from the expected end, or the reason why it was not
/// played, or `ok`.
pub fn tell(rt: &HostRuntime, name: &str, seen: io::Result<Option<String>>) -> io::Result<()> {
    match seen {
        Ok(None) => println!(rt; "{name} ok"),
        Ok(Some(seen)) => println!(rt; "{name}: {seen}"),
        Err(error) => println!(rt; "{name}: {error}"),
    }
}

/// Plays a case, and gives its difference from the expected end, if there is one.
fn play_case(rt: &HostRuntime, case: &Case<'_>, ports: Ports) -> io::Result<Option<String>> {
    let got = outcome(rt, case, ports)?;
    case.ending.difference(rt, &got)
}

/// The result of a case's run.
fn outcome(rt: &HostRuntime, case: &Case<'_>, ports: Ports) -> io::Result<Output> {
    match case.run.split_once(" | ") {
        Some((front, back)) => piped(rt, case.name, front, back, ports),
        None => command(rt, case.name, case.run, ports)?.output(rt),
    }
}

/// The result of the second of two command lines, with the output of the first as its input. The
/// first is waited for once the second has ended.
fn piped(
    rt: &HostRuntime,
    name: &str,
    front: &str,
    back: &str,
    ports: Ports,
) -> io::Result<Output> {
    let mut feeder = command(rt, name, front, ports)?
        .stdout(Stdio::piped())
        .spawn(rt)?;
    let got = run_behind(rt, &mut feeder, name, back, ports)?;
    feeder.wait()?;
    Ok(got)
}

/// The result of a command line with the output of a running program as its input.
fn run_behind(
    rt: &HostRuntime,
    feeder: &mut Child,
    name: &str,
    line: &str,
    ports: Ports,
) -> io::Result<Output> {
    let mut second = command(rt, name, line, ports)?;
    if let Some(output) = feeder.stdout.take() {
        second.stdin(output);
    }
    second.output(rt)
}

/// The program with the words, the streams and the files of a command line.
pub fn command(rt: &HostRuntime, name: &str, line: &str, ports: Ports) -> io::Result<Command> {
    let mut command = program(rt)?;
    prepare(rt, &mut command, name, CommandLine(line), ports)?;
    Ok(command)
}

/// Gives a command the words, the streams and the files of a command line.
fn prepare(
    rt: &HostRuntime,
    command: &mut Command,
    name: &str,
    line: CommandLine<'_>,
    ports: Ports,
) -> io::Result<()> {
    line.put_words(command)?;
    command.stdin(input(rt, name, line.input(), ports)?);
    put_outputs(rt, command, line)?;
    if let Some(folder) = line.folder() {
        copy_files(rt, folder, name)?;
        command.current_dir(name)?;
    }
    Ok(())
}

/// Gives a command the files for its output and its error output.
fn put_outputs(rt: &HostRuntime, command: &mut Command, line: CommandLine<'_>) -> io::Result<()> {
    if let Some(file) = line.output() {
        command.stdout(sink(rt, file)?);
    }
    if let Some(file) = line.errors() {
        command.stderr(sink(rt, file)?);
    }
    Ok(())
}

/// The input of a run: this file, or nothing.
fn input(rt: &HostRuntime, name: &str, file: Option<&str>, ports: Ports) -> io::Result<Stdio> {
    match file {
        Some(file) if file.ends_with(".toml") => configuration(rt, name, file, ports),
        Some(file) => opened(rt, file),
        None => Ok(Stdio::null()),
    }
}

/// A file as an input.
fn opened(rt: &HostRuntime, file: &str) -> io::Result<Stdio> {
    Ok(Stdio::from(File::open(rt, file)?))
}

/// A configuration with these ports in place of `PORT` and `PEER`.
fn configuration(rt: &HostRuntime, name: &str, file: &str, ports: Ports) -> io::Result<Stdio> {
    let copy = format!(in rt.alloc(); "{name}.toml")?;
    write_with_ports(rt, copy.as_str(), file, ports)?;
    opened(rt, copy.as_str())
}

/// Copies the text of a file, with the ports filled in, to another.
fn write_with_ports(rt: &HostRuntime, copy: &str, file: &str, ports: Ports) -> io::Result<()> {
    fs::write(rt, copy, with_ports(rt, file, ports)?)
}

/// The text of a file, with ports in place of `PORT` and `PEER`.
pub fn with_ports(rt: &HostRuntime, file: &str, ports: Ports) -> io::Result<String> {
    let text = fs::read_to_string(rt, file)?;
    let port = format!(in rt.alloc(); "{}", ports.port)?;
    let text = text.replace(rt.alloc(), "PORT", port.as_str())?;
    let Some(peer) = ports.peer else {
        return Ok(text);
    };
    let peer = format!(in rt.alloc(); "{peer}")?;
    Ok(text.replace(rt.alloc(), "PEER", peer.as_str())?)
}

/// A file as an output. `&-` is one that is closed to writers.
fn sink(rt: &HostRuntime, file: &str) -> io::Result<Stdio> {
    if file == "&-" {
        return opened(rt, "/dev/null");
    }
    Ok(Stdio::from(OpenOptions::new().write(true).open(rt, file)?))
}

/// Copies the files of a node into a new folder.
fn copy_files(rt: &HostRuntime, from: &str, to: &str) -> io::Result<()> {
    fs::create_dir(rt, to)?;
    for file in NODE_FILES {
        copy_named(rt, from, to, file)?;
    }
    Ok(())
}

/// Copies the file of this name from one folder to another, if it is there.
fn copy_named(rt: &HostRuntime, from: &str, to: &str, file: &str) -> io::Result<()> {
    let source = path_in(rt.alloc(), from, file)?;
    let copy = path_in(rt.alloc(), to, file)?;
    copy_file(rt, source.as_str(), copy.as_str())
}

/// The path of a file in a folder.
fn path_in(alloc: Global, folder: &str, file: &str) -> Result<String, AllocError> {
    format!(in alloc; "{folder}/{file}")
}

/// Copies a file, if it is there. A folder is copied as an empty folder.
fn copy_file(rt: &HostRuntime, from: &str, to: &str) -> io::Result<()> {
    match fs::metadata(rt, from) {
        Ok(found) if found.is_dir() => fs::create_dir(rt, to),
        Ok(_) => {
            fs::copy(rt, from, to)?;
            Ok(())
        }
        Err(_) => Ok(()),
    }
}
