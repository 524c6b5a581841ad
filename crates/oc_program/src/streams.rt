//! The program over readers and writers, through the adapters of `oc_io`: over bytes in memory,
//! and over streams.

ghost use Rattle.std.specs.Prelude.{◌≡◌, ℕ, Bool, ◌⊎◌, List, [], Option, Some};
ghost use Rattle.oc_commands.specs.AtReplay.{scale_of, status_for};
ghost use Rattle.oc_keep.specs.Files.{disks_in};
ghost use Rattle.oc_commands.specs.Ends.{status_of};
ghost use Rattle.oc_commands.specs.Lines.{file_told, line_of};
ghost use Rattle.oc_commands.specs.Outside.{at_files, at_link, at_node, at_stage};
ghost use Rattle.oc_commands.specs.Run.{Happened};
ghost use Rattle.oc_words.specs.Status.{number_of};
ghost use Rattle.oc_program.specs.Streams.{Grew, IsCountOfLineOrFront, IsLineOrFront, WentOn, WentOnAndFailed, at_bytes, at_input, at_lines, at_output, at_text, at_told, no_traffic};
ghost use Rattle.oc_words.specs.Words.{asked, texts_of};
ghost use Rattle.oc_commands.specs.declared.ending.End.{End};
ghost use Rattle.oc_schedule.specs.Schedule.{schedule_of};

use crate::outside::{Ended, Outside};
use crate::running::run;
use oc_client::Pause;
use oc_io::{Disk, ReaderSource, Traffic, WriterSink};
use oc_keep::Files;
use oc_link::{Dialler, Link};
use oc_replay::Stage;
use oc_words::Invocation;
use std::alloc::Global;
use std::io::{Read, Stderr, Stdout};

/// The objects of a run besides its streams.
#[derive(Drop)]
pub struct Things<T: Stage, D: Disk, L: Dialler, N: Link, P: Pause> {
    pub stage: T,
    pub files: Files<D>,
    pub dialler: L,
    pub link: N,
    pub pause: P,
    /// When the run started, in seconds since 1970.
    pub started: u64,
}

/// The streams of a run: an input, which is the standard one or a file, the file of a token, and the standard outputs.
#[derive(Drop)]
pub struct Streams<R: Read> {
    pub input: R,
    pub token: R,
    pub output: Stdout,
    pub error: Stderr,
}

/// The result of a run over bytes in memory.
#[derive(Drop)]
pub struct MemoryRun<T: Stage, D: Disk, L: Dialler, N: Link, P: Pause> {
    /// The exit status.
    pub status: u8,
    /// The number of bytes read of the input.
    pub read: u64,
    /// The number of bytes read of the token's file.
    pub token_read: u64,
    /// The output.
    pub output: Vec<u8>,
    /// The error output.
    pub error: Vec<u8>,
    pub things: Things<T, D, L, N, P>,
}

/// Runs the program as [`run`] does over the bytes of an input and of the file of a token, into
/// memory. A read of bytes never fails, but a [`ReaderSource`] is proved for every reader, and its
/// relations don't say that; so the ends at which the input failed are not excluded here.
pub fn run_in_memory<T: Stage, D: Disk, L: Dialler, N: Link, P: Pause>(
    alloc: Global,
    words: &[String],
    input: &[u8],
    token: &[u8],
    things: Things<T, D, L, N, P>,
) -> MemoryRun<T, D, L, N, P>
    ensures ended { (end : End) × (usage : List ℕ) × (told : List ℕ)
        × (result.status ≡ number_of (status_of end))
        × IsLineOrFront result.error.items told (line_of end (file_told (asked (texts_of words.now)) end) usage)
        × Happened (record {
          asked = asked (texts_of words.now);
          input = at_bytes input.now result.read;
          token = at_bytes token.now result.token_read;
          output = at_text result.output.items;
          error = at_lines told;
          stage = at_stage T.world things.stage result.things.stage;
          files = at_files D.view (disks_in things.files) (disks_in result.things.files);
          link = at_link L.story L.faults things.dialler result.things.dialler;
          node = at_node D.view N.story N.counts Grew Grew (disks_in things.files) (disks_in result.things.files) things.link result.things.link [] result.output.items;
        }) end }

    // The status of a replay is that of the schedule in these bytes, or the output failed, or
    // memory runs out.
    ensures replayed { (large summary : Bool) (file : Option (List ℕ)) → asked (texts_of words.now) ≡ Some (Invocation.Replay large summary file)
        → (result.status ≡ status_for (schedule_of (scale_of large) input.now)) ⊎ (result.status ≡ 1) ⊎ (result.status ≡ 4) }
{
    let source = ReaderSource::new(input);
    let token_source = ReaderSource::new(token);
    let out = WriterSink::new(Vec::new(alloc));
    let err = WriterSink::new(Vec::new(alloc));
    let outside = Outside {
        input: source,
        token: token_source,
        output: out,
        error: err,
        stage: things.stage,
        files: things.files,
        dialler: things.dialler,
        link: things.link,
        pause: things.pause,
        started: things.started,
    };
    let Ended { status, outside } = run(alloc, words, outside);
    MemoryRun {
        status,
        read: outside.input.traffic().bytes,
        token_read: outside.token.traffic().bytes,
        output: outside.output.into_writer(),
        error: outside.error.into_writer(),
        things: Things {
            stage: outside.stage,
            files: outside.files,
            dialler: outside.dialler,
            link: outside.link,
            pause: outside.pause,
            started: outside.started,
        },
    }
}

/// The result of a run over the standard streams.
#[derive(Drop)]
pub struct StreamsRun<T: Stage, D: Disk, L: Dialler, N: Link, P: Pause> {
    /// The exit status.
    pub status: u8,
    /// The traffic of the input.
    pub input: Traffic,
    /// The traffic of the token's file.
    pub token: Traffic,
    /// The traffic of standard output.
    pub output: Traffic,
    /// The traffic of standard error.
    pub error: Traffic,
    pub things: Things<T, D, L, N, P>,
}

/// Runs the program as [`run`] does over streams. No contract can say which bytes pass there, but
/// this one gives their numbers: the number read is that of some text with the meaning that the end
/// reports, and the number written is exactly that of the text to be written; for `node` it is that
/// of the lines of its deeds, and at each moment that of its deeds so far. If the end blames
/// neither the input nor the output, no call on them failed.
pub fn run_on_streams<R: Read + Drop, T: Stage, D: Disk, L: Dialler, N: Link, P: Pause>(
    alloc: Global,
    words: &[String],
    streams: Streams<R>,
    things: Things<T, D, L, N, P>,
) -> StreamsRun<T, D, L, N, P>
    ensures ended { (end : End) × (usage : List ℕ) × (told : Traffic)
        × (result.status ≡ number_of (status_of end))
        × IsCountOfLineOrFront told result.error (line_of end (file_told (asked (texts_of words.now)) end) usage)
        × Happened (record {
          asked = asked (texts_of words.now);
          input = at_input result.input;
          token = at_input result.token;
          output = at_output result.output;
          error = at_told told;
          stage = at_stage T.world things.stage result.things.stage;
          files = at_files D.view (disks_in things.files) (disks_in result.things.files);
          link = at_link L.story L.faults things.dialler result.things.dialler;
          node = at_node D.view N.story N.counts WentOn WentOnAndFailed (disks_in things.files) (disks_in result.things.files) things.link result.things.link no_traffic result.output;
        }) end }
{
    let stdin = ReaderSource::new(streams.input);
    let token = ReaderSource::new(streams.token);
    let stdout = WriterSink::new(streams.output);
    let stderr = WriterSink::new(streams.error);
    let outside = Outside {
        input: stdin,
        token,
        output: stdout,
        error: stderr,
        stage: things.stage,
        files: things.files,
        dialler: things.dialler,
        link: things.link,
        pause: things.pause,
        started: things.started,
    };
    let Ended { status, outside } = run(alloc, words, outside);
    StreamsRun {
        status,
        input: outside.input.traffic(),
        token: outside.token.traffic(),
        output: outside.output.traffic(),
        error: outside.error.traffic(),
        things: Things {
            stage: outside.stage,
            files: outside.files,
            dialler: outside.dialler,
            link: outside.link,
            pause: outside.pause,
            started: outside.started,
        },
    }
}
