//! New starts of the program.

use std::process::Command;
use std::{env, io};

/// This program, which with words is `overcast`.
pub fn program(rt: &HostRuntime) -> io::Result<Command> {
    let path = env::current_exe(rt)?;
    Ok(Command::new(rt.alloc(), path.as_path())?)
}
