//! A run over the real objects of the system.

ghost use Rattle.std.specs.Prelude.{◌≡◌, ◌⊎◌, IfErr, IfOk};
ghost use Rattle.oc_commands.specs.Ends.{status_of};
ghost use Rattle.oc_program.specs.Started.{HasRun};
ghost use Rattle.oc_words.specs.Status.{number_of};
ghost use Rattle.oc_words.specs.Words.{asked, texts_of};

use crate::places::Places;
use crate::second::{Second, since_1970};
use crate::{End, Status, Streams, StreamsRun, Things, Traffic, WriterSink, run_on_streams, tell};
use oc_keep::Files;
use oc_system::{ClosedStreams, FileDisk, Input, NamedFile, SocketDialler, SocketLink, Trouble};
use oc_words::tip;
use oc_world::World;

/// Runs the program on these words, and gives its status. If there is no memory to read them, the
/// line says so.
pub fn run_words(rt: &HostRuntime, words: &[String]) -> u8
    // The status is that of a run of these words, or nothing was run for lack of memory.
    ensures { ((ran : Started) × HasRun ⟦<World as oc_replay::Stage>⟧.world ⟦<FileDisk<'static, HostRuntime> as oc_io::Disk>⟧.view
        ⟦<SocketDialler<'static, HostRuntime> as oc_link::Dialler>⟧.story ⟦<SocketDialler<'static, HostRuntime> as oc_link::Dialler>⟧.faults
        ⟦<SocketLink<'static, HostRuntime> as oc_link::Link>⟧.story ⟦<SocketLink<'static, HostRuntime> as oc_link::Link>⟧.counts
        (asked (texts_of words.now)) ran × (result ≡ ran.status)) ⊎ (result ≡ number_of Status.Memory) }
{
    match start(rt, words) {
        Ok(ran) => ran.status,
        Err(end) => end_early(rt, end),
    }
}

/// Writes the line for an end that came before a run, and gives its status.
pub fn end_early(rt: &HostRuntime, end: End) -> u8
    ensures { result ≡ number_of (status_of end) }
{
    tell(&mut WriterSink::new(rt.stderr()), &end, None);
    end.status().number()
}

/// The result of a run over the real objects of the system.
#[derive(Clone, Copy)]
pub struct Started {
    /// The exit status.
    pub status: u8,
    /// The traffic of the input.
    pub input: Traffic,
    /// The traffic of the token's file.
    pub token: Traffic,
    /// The traffic of standard output.
    pub output: Traffic,
    /// The traffic of standard error.
    pub error: Traffic,
}

/// Runs the program on these words, over the standard streams and the files and sockets of the
/// system: the input is the file that the words name, or else the standard input, and the three
/// files are those of the folder that they name, or else of the present one ([`Places::of`]). A
/// file is opened at the first call on it. Before the call returns, the rest of the replies is
/// sent, as far as their receivers take it.
///
/// If there is no memory to find the files, nothing is run.
pub fn start(rt: &HostRuntime, words: &[String]) -> Result<Started, End>
    // The end of the run, and its effect on the streams, the world, the files and the links.
    ensures ended { IfOk result (HasRun ⟦<World as oc_replay::Stage>⟧.world ⟦<FileDisk<'static, HostRuntime> as oc_io::Disk>⟧.view
        ⟦<SocketDialler<'static, HostRuntime> as oc_link::Dialler>⟧.story ⟦<SocketDialler<'static, HostRuntime> as oc_link::Dialler>⟧.faults
        ⟦<SocketLink<'static, HostRuntime> as oc_link::Link>⟧.story ⟦<SocketLink<'static, HostRuntime> as oc_link::Link>⟧.counts
        (asked (texts_of words.now))) }
    ensures memory { IfErr result (λ end. end ≡ End.NoMemory) }
{
    let places = Places::of(rt.alloc(), words)?;
    Ok(start_at(rt, words, &places))
}

/// Runs the program with the input and the files at these places. If the status is that of an
/// object that failed, a second line gives the system's reason, if one is known; if it is that of
/// words that are refused, a suggestion, if there is one.
fn start_at(rt: &HostRuntime, words: &[String], places: &Places) -> Started
    ensures ended { HasRun ⟦<World as oc_replay::Stage>⟧.world ⟦<FileDisk<'static, HostRuntime> as oc_io::Disk>⟧.view
        ⟦<SocketDialler<'static, HostRuntime> as oc_link::Dialler>⟧.story ⟦<SocketDialler<'static, HostRuntime> as oc_link::Dialler>⟧.faults
        ⟦<SocketLink<'static, HostRuntime> as oc_link::Link>⟧.story ⟦<SocketLink<'static, HostRuntime> as oc_link::Link>⟧.counts
        (asked (texts_of words.now)) result }
{
    let alloc = rt.alloc();
    let _held = ClosedStreams::hold(rt);
    let mut input = match &places.input {
        Some(path) => Input::Named(NamedFile::new(rt, path.as_str())),
        None => Input::Standard(rt.stdin()),
    };
    let mut token = match &places.token {
        Some(path) => Input::Named(NamedFile::new(rt, path.as_str())),
        None => Input::Standard(rt.stdin()),
    };
    let streams = Streams {
        input: &mut input,
        token: &mut token,
        output: rt.stdout(),
        error: rt.stderr(),
    };
    let stage = World::empty(alloc);
    let control = FileDisk::new(rt, places.control());
    let alternate = FileDisk::new(rt, places.alternate());
    let content = FileDisk::new(rt, places.content());
    let dialler = SocketDialler::new(rt, alloc);
    let link = SocketLink::new(rt, alloc, places.node, named(&places.input));
    let pause = Second::new(rt);
    let things = Things {
        stage,
        files: Files {
            control,
            alternate,
            content,
        },
        dialler,
        link,
        pause,
        started: since_1970(rt),
    };
    let ran = run_on_streams(alloc, words, streams, things);
    let StreamsRun {
        status,
        input: came,
        token: shown,
        output,
        error,
        mut things,
    } = ran;
    things.link.send_rest();
    if status == Status::Usage.number() {
        tell_tip(rt, words);
    }
    if status == Status::Failed.number() {
        tell_trouble(rt, input.trouble());
        tell_trouble(rt, token.trouble());
        tell_trouble(rt, things.files.control.trouble());
        tell_trouble(rt, things.files.alternate.trouble());
        tell_trouble(rt, things.files.content.trouble());
        tell_trouble(rt, things.dialler.trouble());
        tell_trouble(rt, things.link.trouble());
    }
    Started {
        status,
        input: came,
        token: shown,
        output,
        error,
    }
}

/// The path of a file, if one is named.
fn named(path: &Option<String>) -> Option<&str> {
    match path {
        Some(path) => Some(path.as_str()),
        None => None,
    }
}

/// Writes the suggestion for words that were refused on the error output, if there is one.
fn tell_tip(rt: &HostRuntime, words: &[String]) {
    if let Some(tip) = tip(rt.alloc(), words) {
        let _ = eprintln!(rt; "overcast: {tip}");
    }
}

/// Writes the reason of a failed call on the error output, if a call failed.
fn tell_trouble(rt: &HostRuntime, trouble: Option<Trouble<'_>>) {
    if let Some(trouble) = trouble {
        let _ = eprintln!(rt; "overcast: {trouble}");
    }
}
