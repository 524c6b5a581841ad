//! The requests that the arguments of subcommands make.
ghost use Rattle.std.specs.Prelude.{◌≡◌, IfOk};
ghost use Rattle.std.specs.Result.{result_ok};
ghost use Rattle.clap.specs.Words.{found_of, rows_of};
ghost use Rattle.oc_words.specs.Requests.{IsDownload, IsCheckedNode, IsSample, IsService};
ghost use Rattle.oc_words.specs.Arguments.{download_of, checked_node_of, paths_of, replay_of, sample_of, service_of, upload_of};
ghost use Rattle.oc_words.specs.Words.{Answers, IsRequest};

use crate::arguments::{copied, given, is_flagged, word};
use crate::parsing::{checked_node_without, onto_in, sample_in, service_in, start_in, times_in};
use crate::words::WordsFault;
use crate::{CheckedNode, Download, Invocation, Name, Paths, Sample, Service, Upload};
use clap::ArgMatches;
use oc_base::Why;
use std::alloc::{AllocError, Global};

/// The sample given by the arguments of `gen`.
pub(crate) fn sample_of(matches: &ArgMatches<'_>) -> Result<Sample, Why>
    ensures said { result ≡ sample_of (rows_of (found_of matches.now)) }
    ensures range { IfOk result IsSample }
{
    let seed = word(matches, "SEED")?;
    let nodes = word(matches, "NODES")?;
    let events = word(matches, "EVENTS")?;
    sample_in(seed, nodes, events)
}

/// The run given by the arguments of `node`.
pub(crate) fn service_of(matches: &ArgMatches<'_>) -> Result<Service, Why>
    ensures said { result ≡ service_of (rows_of (found_of matches.now)) }
    ensures range { IfOk result IsService }
{
    let id = word(matches, "ID")?;
    let turns = given(matches, "turns");
    let log = given(matches, "log");
    service_in(id, turns, is_flagged(matches, "probe"), log)
}

/// The paths given by the arguments of `node` and `check`.
pub(crate) fn paths_of(alloc: Global, matches: &ArgMatches<'_>) -> Result<Paths, AllocError>
    ensures { IfOk result (λ paths. paths ≡ paths_of (rows_of (found_of matches.now))) }
{
    Ok(Paths {
        config: copied(alloc, matches, "config")?,
        folder: copied(alloc, matches, "dir")?,
    })
}

/// The request given by the arguments of `replay`.
pub(crate) fn replay_of(alloc: Global, matches: &ArgMatches<'_>) -> Result<Invocation, WordsFault>
    ensures answers { Answers (result_ok (replay_of (rows_of (found_of matches.now)))) result }
    ensures range { IfOk result IsRequest }
{
    let large = is_flagged(matches, "large");
    let summary = is_flagged(matches, "summary");
    if large && !summary {
        return Err(WordsFault::Usage);
    }
    Ok(Invocation::Replay {
        large,
        summary,
        file: copied(alloc, matches, "FILE")?,
    })
}

/// The node given by the arguments of `check`, with its id and the number of nodes.
pub(crate) fn checked_node_of(
    matches: &ArgMatches<'_>,
    id: &str,
    nodes: &str,
) -> Result<CheckedNode, Why>
    ensures said { result ≡ checked_node_of id.now nodes.now (rows_of (found_of matches.now)) }
    ensures range { IfOk result IsCheckedNode }
{
    let chain = given(matches, "CHAIN");
    checked_node_without(id, nodes, chain, given(matches, "config"))
}

/// The download given by the arguments of `get`.
pub(crate) fn download_of(alloc: Global, matches: &ArgMatches<'_>) -> Result<Download, WordsFault>
    ensures answers { Answers (result_ok (download_of (rows_of (found_of matches.now)))) result }
    ensures range { IfOk result IsDownload }
{
    let url = word(matches, "URL")?;
    let times = times_in(given(matches, "follow"))?;
    let start = start_in(given(matches, "from"))?;
    Ok(Download {
        address: Name::of(alloc, url)?,
        times,
        start,
        token_file: copied(alloc, matches, "token-file")?,
        progress: is_flagged(matches, "progress"),
    })
}

/// The publishing given by the arguments of `put`.
pub(crate) fn upload_of(alloc: Global, matches: &ArgMatches<'_>) -> Result<Upload, WordsFault>
    ensures answers { Answers (result_ok (upload_of (rows_of (found_of matches.now)))) result }
{
    let url = word(matches, "URL")?;
    let onto = onto_in(is_flagged(matches, "append"), is_flagged(matches, "resume"))?;
    Ok(Upload {
        address: Name::of(alloc, url)?,
        onto,
        seals: is_flagged(matches, "seal"),
        live: is_flagged(matches, "live"),
        token_file: copied(alloc, matches, "token-file")?,
        progress: is_flagged(matches, "progress"),
    })
}
