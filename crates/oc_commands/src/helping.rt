//! The answers to `--help` and to `--version`.
ghost use Rattle.std.specs.Prelude.{◌≡◌, ℕ, ◌<◌, ◌⊎◌, List, length};
ghost use Rattle.oc_io.specs.Faults.{NoFall, Rose};
ghost use Rattle.oc_replay.specs.Pieces.{SomeFront};
ghost use Rattle.oc_commands.specs.Lines.{version_line};

use crate::ending::End;
use crate::telling::write_parts;
use crate::texts::help;
use oc_io::{Sink, write_all};
use oc_words::VERSION;

/// Writes the help that the words ask for.
pub fn write_help<K: Sink>(words: &[String], out: &mut K) -> End
    ensures helped { result ≡ End.Helped → (text : List ℕ) × (0 < length text) × K.takes out.old text out.new }
    ensures failed { result ≡ End.HelpFailed → (text : List ℕ) × K.fails out.old text out.new × Rose (K.faults out.old) (K.faults out.new) }
    ensures either { (result ≡ End.Helped) ⊎ (result ≡ End.HelpFailed) }
    ensures count { NoFall (K.faults out.old) (K.faults out.new) }
{
    match write_all(out, help(words).as_bytes()) {
        Ok(()) => End::Helped,
        Err(_) => End::HelpFailed,
    }
}

/// Writes the version of the program.
pub fn write_version<K: Sink>(out: &mut K) -> End
    ensures written { result ≡ End.Versioned → K.takes out.old version_line out.new }
    ensures failed { result ≡ End.VersionFailed
        → SomeFront version_line (λ front. K.fails out.old front out.new) × Rose (K.faults out.old) (K.faults out.new) }
    ensures either { (result ≡ End.Versioned) ⊎ (result ≡ End.VersionFailed) }
    ensures count { NoFall (K.faults out.old) (K.faults out.new) }
{
    match write_parts(out, &[b"overcast ", VERSION.as_bytes(), b"\n"]) {
        Ok(()) => End::Versioned,
        Err(_) => End::VersionFailed,
    }
}
