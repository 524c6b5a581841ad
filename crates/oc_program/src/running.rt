//! The top call.

ghost use Rattle.std.specs.Prelude.{◌≡◌, ◌≢◌, ℕ, ◌⊎◌, List, None, Err, IfOk, option_map};
ghost use Rattle.oc_keep.specs.Files.{disks_in};
ghost use Rattle.oc_io.specs.Faults.{NoFall};
ghost use Rattle.oc_commands.specs.AtCheck.{HappenedAtCheck, sizes_of};
ghost use Rattle.oc_commands.specs.AtConfigured.{HappenedAtConfigured, UnlessChecked};
ghost use Rattle.oc_commands.specs.AtGet.{HappenedAtGet};
ghost use Rattle.oc_commands.specs.AtNode.{HappenedAtNode, UnlessRan};
ghost use Rattle.oc_commands.specs.AtPut.{HappenedAtPut};
ghost use Rattle.oc_commands.specs.Ends.{status_of, status_of_service};
ghost use Rattle.oc_commands.specs.Lines.{file_at, file_known, file_told, line_of};
ghost use Rattle.oc_commands.specs.Outside.{at_files, at_link, at_node, at_sink, at_source};
ghost use Rattle.oc_commands.specs.Run.{Happened, IsNoNode, IsWrittenOrCut};
ghost use Rattle.oc_commands.specs.Telling.{at_error};
ghost use Rattle.oc_program.specs.Seen.{seen};
ghost use Rattle.oc_program.specs.StatusFor.{StatusFor};
ghost use Rattle.oc_words.specs.Requests.{IsCheckedNode};
ghost use Rattle.oc_words.specs.Status.{number_of};
ghost use Rattle.oc_words.specs.Words.{Answers, IsPlain, IsRequest, asked, texts_of};

use crate::outside::{Ended, Outside};
use oc_client::{Aside, GetEnd, Metered, Pause, PutEnd};
use oc_commands::{
    CheckEnd, ConfiguredEnd, End, Served, ServiceEnd, check_configured, check_files, download,
    error_of, list_rules, merge_input, progress_on, publish, replay_input, run_service, scale_of,
    take_token, tell, write_help, write_sample, write_version,
};
use oc_io::{Disk, Sink, Source};
use oc_link::{Dialler, Link};
use oc_replay::Stage;
use oc_service::Site;
use oc_words::{CheckedNode, Download, Invocation, Name, Service, Upload, WordsFault, read_words};
use std::alloc::Global;

/// Runs the program: performs the request of the words, from the input to the output, over the
/// stage, the three files of a node, and the links of a client and of a node. The whole outside is
/// given back.
///
/// The status is that of [`Status`](crate::Status). With each status other than 0 a line on the
/// error output gives the reason, after the progress lines of a client if those are wanted. Objects
/// that the request does not use are unchanged.
pub fn run<S: Source, K: Sink, E: Sink, T: Stage, D: Disk, L: Dialler, N: Link, P: Pause>(
    alloc: Global,
    words: &[String],
    outside: Outside<S, K, E, T, D, L, N, P>,
) -> Ended<S, K, E, T, D, L, N, P>
    // The end of the run: the status, the line on the error output after the progress lines, and
    // the effect on the outside; for a node, the bytes written and the files after every crash, at
    // each moment of its run.
    ensures ended { (end : End) × (usage : List ℕ) × (told : E)
        × (result.status ≡ number_of (status_of end))
        × IsWrittenOrCut E.takes E.fails E.faults told result.outside.error (line_of end (file_told (asked (texts_of words.now)) end) usage)
        × Happened (seen S.gives S.fails S.ended S.faults K.takes K.fails K.faults E.takes E.fails E.faults T.world D.view L.story L.faults N.story N.counts
        (asked (texts_of words.now)) outside told result.outside) end }

    // The status is determined by the meaning of the input, and by the files or the link, if nothing
    // fails that the command names in its status. Or memory runs out.
    ensures status_for { StatusFor S.gives S.ended S.faults K.faults D.view L.story L.faults N.counts outside result.outside
        (asked (texts_of words.now)) result.status }

    // Status 2 comes only if the words make no request.
    ensures only_misused { result.status ≡ 2 → asked (texts_of words.now) ≡ None }
    ensures plain { IsPlain (texts_of words.now) → result.status ≢ 2 }

    ensures input_count { NoFall (S.faults outside.input) (S.faults result.outside.input) }
    ensures error_count { NoFall (E.faults outside.error) (E.faults result.outside.error) }

    // The output's count of faults never falls if the work is done, nor if the words ask for no
    // node. For a node that ends early, nothing is promised about it.
    ensures output_count { IsNoNode (asked (texts_of words.now)) → NoFall (K.faults outside.output) (K.faults result.outside.output) }
    ensures done_count { result.status ≡ 0 → NoFall (K.faults outside.output) (K.faults result.outside.output) }
{
    let given = read_words(alloc, words);
    let (end, mut outside) = perform(alloc, words, &given, outside);
    tell_of(&mut outside.error, &end, given);
    Ended {
        status: end.status().number(),
        outside,
    }
}

/// Writes the line for an end on the error output, given the result of reading the words.
fn tell_of<E: Sink>(err: &mut E, end: &End, given: Result<Invocation, WordsFault>)
    ensures told { (usage : List ℕ) × IsWrittenOrCut E.takes E.fails E.faults err.old err.new (line_of end.now (file_known given end.now) usage) }
    ensures count { NoFall (E.faults err.old) (E.faults err.new) }
{
    match given {
        Ok(request) => tell(err, end, file_of(&request, end)),
        Err(_) => tell(err, end, None),
    }
}

/// The file that an end is about, among those that a request names.
fn file_of<'a>(request: &'a Invocation, end: &End) -> Option<&'a str>
    ensures { option_map (λ name. name.now) result ≡ file_at request.now end.now }
{
    if end.lacks_token() {
        request.token_file()
    } else {
        request.file()
    }
}

/// Performs the request of the words, given the result of reading them.
fn perform<S: Source, K: Sink, E: Sink, T: Stage, D: Disk, L: Dialler, N: Link, P: Pause>(
    alloc: Global,
    words: &[String],
    given: &Result<Invocation, WordsFault>,
    outside: Outside<S, K, E, T, D, L, N, P>,
) -> (End, Outside<S, K, E, T, D, L, N, P>)
    requires answers { Answers (asked (texts_of words.now)) given.now }
    requires range { IfOk given.now IsRequest }
    ensures happened { Happened (seen S.gives S.fails S.ended S.faults K.takes K.fails K.faults E.takes E.fails E.faults T.world D.view L.story L.faults N.story N.counts
        (asked (texts_of words.now)) outside result.1.error result.1) result.0 }
    ensures misused { asked (texts_of words.now) ≡ None → (result.0 ≡ End.Misused) ⊎ (result.0 ≡ End.NoMemory) }
    ensures no_memory { given.now ≡ Err WordsFault.Memory → result.0 ≡ End.NoMemory }
    ensures input_count { NoFall (S.faults outside.input) (S.faults result.1.input) }
    ensures output_count { IsNoNode (asked (texts_of words.now)) → NoFall (K.faults outside.output) (K.faults result.1.output) }
    ensures done_count { number_of (status_of result.0) ≡ 0 → NoFall (K.faults outside.output) (K.faults result.1.output) }
    ensures error_count { NoFall (E.faults outside.error) (E.faults result.1.error) }
{
    let mut outside = outside;
    match given {
        Ok(Invocation::Node(service, _)) => {
            let (end, outside) = serve(alloc, *service, outside);
            (End::Served(end), outside)
        }
        Ok(Invocation::Check(member, _)) => {
            let (end, outside) = check(alloc, *member, outside);
            (End::Checked(end), outside)
        }
        Ok(Invocation::CheckConfigured(id, _)) => {
            let (end, outside) = check_one_of(alloc, *id, outside);
            (End::CheckedConfigured(end), outside)
        }
        Ok(Invocation::Replay { large, summary, .. }) => {
            let end = replay_input(
                alloc,
                &mut outside.input,
                &mut outside.output,
                &mut outside.stage,
                scale_of(*large),
                *summary,
            );
            (End::Replayed { large: *large, end }, outside)
        }
        Ok(Invocation::Merge) => {
            let end = merge_input(alloc, &mut outside.input, &mut outside.output);
            (End::Merged(end), outside)
        }
        Ok(Invocation::Gen(sample)) => {
            let end = write_sample(alloc, *sample, &mut outside.output);
            (End::Generated(end), outside)
        }
        Ok(Invocation::Rules(_)) => {
            let end = list_rules(alloc, &mut outside.input, &mut outside.output);
            (End::Listed(end), outside)
        }
        Ok(Invocation::Get(wanted)) => {
            match take_token(alloc, &wanted.token_file, &mut outside.token) {
                Ok(token) => {
                    let (end, outside) = fetch(alloc, wanted, &token, outside);
                    (End::Got(end), outside)
                }
                Err(end) => (End::NoToken(end), outside),
            }
        }
        Ok(Invocation::Put(wanted)) => {
            match take_token(alloc, &wanted.token_file, &mut outside.token) {
                Ok(token) => {
                    let (end, outside) = post(alloc, wanted, &token, outside);
                    (End::Published(end), outside)
                }
                Err(end) => (End::NoToken(end), outside),
            }
        }
        Ok(Invocation::Help) => {
            let end = write_help(words, &mut outside.output);
            (end, outside)
        }
        Ok(Invocation::Version) => {
            let end = write_version(&mut outside.output);
            (end, outside)
        }
        Err(WordsFault::Usage) => (End::Misused, outside),
        Err(WordsFault::Memory) => (End::NoMemory, outside),
    }
}

/// Runs a node.
fn serve<S: Source, K: Sink, E: Sink, T: Stage, D: Disk, L: Dialler, N: Link, P: Pause>(
    alloc: Global,
    service: Service,
    outside: Outside<S, K, E, T, D, L, N, P>,
) -> (ServiceEnd, Outside<S, K, E, T, D, L, N, P>)
    ensures happened { HappenedAtNode
        (at_source S.gives S.fails S.ended S.faults outside.input result.1.input)
        (at_node D.view N.story N.counts K.takes K.fails (disks_in outside.files) (disks_in result.1.files) outside.link result.1.link outside.output result.1.output)
        (at_sink K.takes K.fails K.faults outside.output result.1.output) service result.0 }
    ensures files { UnlessRan result.0 (disks_in result.1.files ≡ disks_in outside.files) }
    ensures link { UnlessRan result.0 (result.1.link ≡ outside.link) }
    ensures input_count { NoFall (S.faults outside.input) (S.faults result.1.input) }
    ensures done_count { number_of (status_of_service result.0) ≡ 0 → NoFall (K.faults outside.output) (K.faults result.1.output) }

    // No other object was used.
    ensures rest { (result.1.error ≡ outside.error) × (result.1.stage ≡ outside.stage) }
    ensures client { (result.1.dialler ≡ outside.dialler) × (result.1.token ≡ outside.token) }
{
    let mut outside = outside;
    let site = Site {
        files: outside.files,
        link: outside.link,
        sink: outside.output,
    };
    let started = outside.started;
    let Served { end, site } = run_service(alloc, service, started, &mut outside.input, site);
    outside.files = site.files;
    outside.link = site.link;
    outside.output = site.sink;
    (end, outside)
}

/// Shows the files of a node.
fn check<S: Source, K: Sink, E: Sink, T: Stage, D: Disk, L: Dialler, N: Link, P: Pause>(
    alloc: Global,
    member: CheckedNode,
    outside: Outside<S, K, E, T, D, L, N, P>,
) -> (CheckEnd, Outside<S, K, E, T, D, L, N, P>)
    requires { IsCheckedNode member }
    ensures happened { HappenedAtCheck
        (at_files D.view (disks_in outside.files) (disks_in result.1.files))
        (at_sink K.takes K.fails K.faults outside.output result.1.output) (sizes_of member) member.id result.0 }
    ensures count { NoFall (K.faults outside.output) (K.faults result.1.output) }

    // No other object was used.
    ensures input { result.1.input ≡ outside.input }
    ensures rest { (result.1.error ≡ outside.error) × (result.1.stage ≡ outside.stage) }
    ensures links { (result.1.dialler ≡ outside.dialler) × (result.1.token ≡ outside.token) × (result.1.link ≡ outside.link) }
{
    let mut outside = outside;
    let files = outside.files;
    let (end, files) = check_files(alloc, member, &mut outside.output, files);
    outside.files = files;
    (end, outside)
}

/// Shows the files of a node of the configuration on the input.
fn check_one_of<S: Source, K: Sink, E: Sink, T: Stage, D: Disk, L: Dialler, N: Link, P: Pause>(
    alloc: Global,
    id: u64,
    outside: Outside<S, K, E, T, D, L, N, P>,
) -> (ConfiguredEnd, Outside<S, K, E, T, D, L, N, P>)
    ensures happened { HappenedAtConfigured
        (at_source S.gives S.fails S.ended S.faults outside.input result.1.input)
        (at_files D.view (disks_in outside.files) (disks_in result.1.files))
        (at_sink K.takes K.fails K.faults outside.output result.1.output) id result.0 }
    ensures files { UnlessChecked result.0 (disks_in result.1.files ≡ disks_in outside.files) }
    ensures input_count { NoFall (S.faults outside.input) (S.faults result.1.input) }
    ensures count { NoFall (K.faults outside.output) (K.faults result.1.output) }

    // No other object was used.
    ensures rest { (result.1.error ≡ outside.error) × (result.1.stage ≡ outside.stage) }
    ensures links { (result.1.dialler ≡ outside.dialler) × (result.1.token ≡ outside.token) × (result.1.link ≡ outside.link) }
{
    let mut outside = outside;
    let files = outside.files;
    let (input, output) = (&mut outside.input, &mut outside.output);
    let (end, files) = check_configured(alloc, id, input, output, files);
    outside.files = files;
    (end, outside)
}

/// Downloads a URL.
fn fetch<S: Source, K: Sink, E: Sink, T: Stage, D: Disk, L: Dialler, N: Link, P: Pause>(
    alloc: Global,
    wanted: &Download,
    token: &Option<Name>,
    outside: Outside<S, K, E, T, D, L, N, P>,
) -> (GetEnd, Outside<S, K, E, T, D, L, N, P>)
    ensures happened { HappenedAtGet
        (at_link L.story L.faults outside.dialler result.1.dialler)
        (at_sink K.takes K.fails K.faults outside.output result.1.output)
        (at_error E.takes E.fails E.faults outside.error result.1.error) wanted.now token.now result.0 }
    ensures count { NoFall (K.faults outside.output) (K.faults result.1.output) }
    ensures error_count { NoFall (E.faults outside.error) (E.faults result.1.error) }

    // No other object was used.
    ensures inputs { (result.1.input ≡ outside.input) × (result.1.token ≡ outside.token) }
    ensures rest { (result.1.stage ≡ outside.stage) × (result.1.files ≡ outside.files) }
    ensures link { result.1.link ≡ outside.link }
{
    let mut outside = outside;
    let mut out = Metered {
        sink: outside.output,
        lines: progress_on(outside.error, wanted.progress),
    };
    let end = download(alloc, wanted, token, &mut out, &mut outside.dialler);
    outside.output = out.sink;
    outside.error = error_of(out.lines);
    (end, outside)
}

/// Publishes the input.
fn post<S: Source, K: Sink, E: Sink, T: Stage, D: Disk, L: Dialler, N: Link, P: Pause>(
    alloc: Global,
    wanted: &Upload,
    token: &Option<Name>,
    outside: Outside<S, K, E, T, D, L, N, P>,
) -> (PutEnd, Outside<S, K, E, T, D, L, N, P>)
    ensures happened { HappenedAtPut
        (at_link L.story L.faults outside.dialler result.1.dialler)
        (at_source S.gives S.fails S.ended S.faults outside.input result.1.input)
        (at_error E.takes E.fails E.faults outside.error result.1.error) wanted.now token.now result.0 }
    ensures count { NoFall (S.faults outside.input) (S.faults result.1.input) }
    ensures error_count { NoFall (E.faults outside.error) (E.faults result.1.error) }

    // No other object was used.
    ensures output { result.1.output ≡ outside.output }
    ensures rest { (result.1.stage ≡ outside.stage) × (result.1.files ≡ outside.files) }
    ensures others { (result.1.token ≡ outside.token) × (result.1.link ≡ outside.link) }
{
    let mut outside = outside;
    let mut aside = Aside {
        pause: outside.pause,
        lines: progress_on(outside.error, wanted.progress),
    };
    let end = publish(
        alloc,
        wanted,
        token,
        &mut outside.input,
        &mut outside.dialler,
        &mut aside,
    );
    outside.pause = aside.pause;
    outside.error = error_of(aside.lines);
    (end, outside)
}
