//! Nodes of a network, each as a process in a folder of its own.

use crate::starting::program;
use std::io::{self, Write};
use std::net::{TcpListener, TcpStream};
use std::process::{Child, ChildStdin, Command, Output, Stdio};
use std::time::Duration;
use std::{fs, thread};

/// The greatest number of turns that a node runs.
const TURNS: &str = "1000000";

/// The greatest number of tries of a first connection, and the time between two tries.
const MOST_TRIES: u32 = 1_000;

const TRY_MILLIS: u64 = 10;

/// The place of a node: its number, its folder, its port, and the configuration of its network.
#[derive(Drop)]
pub struct Home {
    pub node: u16,
    pub folder: String,
    pub port: u16,
    configuration: String,
}

impl Home {
    /// A new folder with this name, for a node on a free port, in a network of its own.
    pub fn new(rt: &HostRuntime, name: &str) -> io::Result<Home> {
        let port = free_port(rt)?;
        Home::of(rt, name, 1, &[port])
    }

    /// A new folder with this name, for this node of a network whose nodes have these ports, that
    /// of node 1 first.
    pub fn of(rt: &HostRuntime, name: &str, node: u16, ports: &[u16]) -> io::Result<Home> {
        fs::create_dir(rt, name)?;
        Ok(Home {
            node,
            folder: String::from_str(rt.alloc(), name)?,
            port: port_of(ports, node),
            configuration: configuration_of(rt, ports)?,
        })
    }

    /// Starts the node, and returns once it listens.
    pub fn start(&self, rt: &HostRuntime) -> io::Result<Child> {
        let mut node = self.spawn(rt)?;
        self.begin(rt, &mut node)?;
        Ok(node)
    }

    /// Starts the node, which waits for its configuration.
    fn spawn(&self, rt: &HostRuntime) -> io::Result<Child> {
        let node = format!(in rt.alloc(); "{}", self.node)?;
        self.program(rt, &["node", node.as_str(), "--turns", TURNS])?
            .stdin(Stdio::piped())
            .stdout(Stdio::null())
            .spawn(rt)
    }

    /// Gives the node its configuration, and waits until it listens.
    fn begin(&self, rt: &HostRuntime, node: &mut Child) -> io::Result<()> {
        if let Some(input) = node.stdin.take() {
            self.configure(input)?;
        }
        self.wait(rt)
    }

    /// Writes the configuration, and ends the input.
    fn configure(&self, mut input: ChildStdin) -> io::Result<()> {
        input.write_all(self.configuration.as_bytes())
    }

    /// Waits until the node listens.
    fn wait(&self, rt: &HostRuntime) -> io::Result<()> {
        for _ in 0..MOST_TRIES {
            if self.connect(rt).is_ok() {
                return Ok(());
            }
            thread::sleep(rt, Duration::from_millis(TRY_MILLIS));
        }
        Err(io::Error::from(io::ErrorKind::TimedOut))
    }

    /// A connection to the node.
    pub fn connect(&self, rt: &HostRuntime) -> io::Result<TcpStream> {
        let address = format!(in rt.alloc(); "localhost:{}", self.port)?;
        TcpStream::connect(rt, address.as_str())
    }

    /// The output of the program with these words in the folder.
    pub fn output(&self, rt: &HostRuntime, words: &[&str]) -> io::Result<Output> {
        self.program(rt, words)?.output(rt)
    }

    /// The program with these words, in the folder.
    fn program(&self, rt: &HostRuntime, words: &[&str]) -> io::Result<Command> {
        let mut command = program(rt)?;
        self.put_words(&mut command, words)?;
        Ok(command)
    }

    /// Gives a command its words and the folder.
    fn put_words(&self, command: &mut Command, words: &[&str]) -> io::Result<()> {
        for word in words {
            command.arg(*word)?;
        }
        command.current_dir(self.folder.as_str())?;
        Ok(())
    }
}

/// Kills a node, and waits until it has ended.
pub fn end(mut node: Child) -> io::Result<()> {
    node.kill()?;
    node.wait()?;
    Ok(())
}

/// The port of a node.
fn port_of(ports: &[u16], node: u16) -> u16 {
    ports
        .get(usize::from(node).saturating_sub(1))
        .copied()
        .unwrap_or(0)
}

/// The configuration of a network whose nodes have these ports.
fn configuration_of(rt: &HostRuntime, ports: &[u16]) -> io::Result<String> {
    let mut text = String::from_str(rt.alloc(), "chain = 1\n")?;
    let mut node = 0u16;
    for port in ports {
        let port = *port;
        node = node.saturating_add(1);
        let table = format!(in rt.alloc();
            "\n[[node]]\nid = {node}\naddress = \"localhost:{port}\"\n"
        )?;
        text.push_str(table.as_str())?;
    }
    Ok(text)
}

/// A port at which nobody listens.
pub fn free_port(rt: &HostRuntime) -> io::Result<u16> {
    let listener = TcpListener::bind(rt, "localhost:0")?;
    Ok(listener.local_addr()?.port())
}
