//! The program with a peer played by this process: one that resets, ends, or says nothing.

use crate::case::{Case, CommandLine};
use crate::node::free_port;
use crate::playing::{Ports, command, tell, with_ports};
use crate::talking::talk;
use std::io::{self, ErrorKind};
use std::net::{TcpListener, TcpStream};
use std::process::Stdio;
use std::thread;
use std::time::Duration;

/// The greatest number of looks for a connection, and the time between two looks.
const MOST_LOOKS: u32 = 1_500;

const LOOK_MILLIS: u64 = 10;

/// Plays the rows of a table. Each is a run of the program, with the steps of its peer after ` ^ `.
/// `PEER` is replaced by the port at which the peer listens, and `PORT` by one at which nobody
/// does.
pub fn play_peers(rt: &HostRuntime, table: &str) -> io::Result<()> {
    let listener = TcpListener::bind(rt, "localhost:0")?;
    listener.set_nonblocking(true)?;
    let ports = Ports {
        port: free_port(rt)?,
        peer: Some(listener.local_addr()?.port()),
    };
    let rows = with_ports(rt, table, ports)?;
    for row in rows.lines() {
        if let Some(case) = Case::read(row) {
            tell(rt, case.name, play_beside(rt, &case, ports, &listener))?;
        }
    }
    Ok(())
}

/// Plays a case, and gives its difference from the expected end, or from the bytes that the peer
/// expects, if there is one.
fn play_beside(
    rt: &HostRuntime,
    case: &Case<'_>,
    ports: Ports,
    listener: &TcpListener,
) -> io::Result<Option<String>> {
    let (line, steps) = case.run.split_once(" ^ ").unwrap_or((case.run, ""));
    drop_waiting(listener);
    let mut prepared = command(rt, case.name, line, ports)?;
    prepared.stderr(Stdio::piped());
    if CommandLine(line).output().is_none() {
        prepared.stdout(Stdio::piped());
    }
    let mut running = prepared.spawn(rt)?;
    let heard = play_peer(rt, listener, steps);
    if heard.is_err() {
        running.kill()?;
    }
    let got = running.wait_with_output(rt.alloc())?;
    match heard? {
        Some(told) => Ok(Some(told)),
        None => case.ending.difference(rt, &got),
    }
}

/// Accepts the connections, one after another. The steps on each begin with `accept`, and after
/// them the connection is dropped: if bytes are left unread, the system then sends a reset.
fn play_peer(rt: &HostRuntime, listener: &TcpListener, steps: &str) -> io::Result<Option<String>> {
    let mut rest = steps.strip_prefix("accept ^ ").unwrap_or(steps);
    for _ in 0..steps.len() {
        let (steps, behind) = rest.split_once(" ^ accept ^ ").unwrap_or((rest, ""));
        let mut stream = accepted(rt, listener)?;
        if let Some(told) = talk(rt, &mut stream, steps)? {
            return Ok(Some(told));
        }
        if behind.is_empty() {
            break;
        }
        rest = behind;
    }
    Ok(None)
}

/// Drops the waiting connections, which a run before made and its peer did not accept.
fn drop_waiting(listener: &TcpListener) {
    for _ in 0..MOST_LOOKS {
        if listener.accept().is_err() {
            return;
        }
    }
}

/// The next connection, if one comes in time.
fn accepted(rt: &HostRuntime, listener: &TcpListener) -> io::Result<TcpStream> {
    for _ in 0..MOST_LOOKS {
        match listener.accept() {
            Ok((stream, _)) => {
                stream.set_nonblocking(false)?;
                return Ok(stream);
            }
            Err(error) if error.kind() == ErrorKind::WouldBlock => {
                thread::sleep(rt, Duration::from_millis(LOOK_MILLIS));
            }
            Err(error) => return Err(error),
        }
    }
    Err(io::Error::from(ErrorKind::TimedOut))
}
