//! The rows of the table of cases.

use crate::ending::Ending;
use std::io;
use std::process::Command;

/// The first characters of pieces that are not words of a command line.
const SIGNS: [&str; 4] = ["<", ">", "2>", "@"];

/// A row: a run of the program, and the expected end.
#[derive(Clone, Copy)]
pub struct Case<'a> {
    pub name: &'a str,
    /// The command line; or two with ` | ` between them, for which the output of the first is the
    /// input of the second.
    pub run: &'a str,
    pub ending: Ending<'a>,
}

impl<'a> Case<'a> {
    /// The case of a row; none for an empty row and one that begins with `#`.
    pub fn read(row: &'a str) -> Option<Case<'a>> {
        if row.is_empty() || row.starts_with('#') {
            return None;
        }
        let (given, wanted) = row.split_once(" = ").unwrap_or((row, ""));
        let (name, run) = given.split_once(' ').unwrap_or((given, ""));
        Some(Case {
            name,
            run,
            ending: Ending::read(wanted),
        })
    }
}

/// The words of a run with the files of its streams, as in a shell.
#[derive(Clone, Copy)]
pub struct CommandLine<'a>(pub &'a str);

impl<'a> CommandLine<'a> {
    /// Gives the words to a command. At least one is needed: without words the program would play
    /// the cases again. `''` is an empty word.
    pub fn put_words(&self, command: &mut Command) -> io::Result<()> {
        let mut has_word = false;
        for piece in self.0.split_ascii_whitespace() {
            if is_word(piece) {
                command.arg(if piece == "''" { "" } else { piece })?;
                has_word = true;
            }
        }
        if has_word {
            Ok(())
        } else {
            Err(io::Error::from(io::ErrorKind::InvalidInput))
        }
    }

    /// The file on the input.
    pub fn input(&self) -> Option<&'a str> {
        self.behind("<")
    }

    /// The file that takes the output.
    pub fn output(&self) -> Option<&'a str> {
        self.behind(">")
    }

    /// The file that takes the error output.
    pub fn errors(&self) -> Option<&'a str> {
        self.behind("2>")
    }

    /// The folder whose files are copied to where the program runs.
    pub fn folder(&self) -> Option<&'a str> {
        self.behind("@")
    }

    /// The text after a sign.
    fn behind(&self, sign: &str) -> Option<&'a str> {
        for piece in self.0.split_ascii_whitespace() {
            if let Some(rest) = piece.strip_prefix(sign) {
                return Some(rest);
            }
        }
        None
    }
}

/// Whether a piece of a command line is a word of the program.
fn is_word(piece: &str) -> bool {
    for sign in SIGNS {
        if piece.starts_with(sign) {
            return false;
        }
    }
    true
}
