//! The numbers of a request, parsed from words.
ghost use Rattle.std.specs.Prelude.{◌≡◌, ◌≤◌, ◌⊎◌, IfOk, option_map};
ghost use Rattle.oc_words.specs.Requests.{IsCheckedNode, IsSample, IsService, IsStart, IsTimes, id_in, log_by, log_in, checked_node_in, checked_node_without};
ghost use Rattle.oc_words.specs.Requests.{onto_in, sample_in, service_in, start_in, times_in, turns_in};

use crate::request::{
    CheckedNode, ENDLESS, LogWord, MAX_EVENTS, MAX_FOLLOWED, MAX_TURNS, Onto, Sample, Service,
};
use oc_base::words::number;
use oc_base::{MAX_CHAIN, MAX_NODES, MAX_START, Why};

/// The sample given by three words.
pub(crate) fn sample_in(seed: &str, nodes: &str, events: &str) -> Result<Sample, Why>
    ensures said { result ≡ sample_in seed.now nodes.now events.now }
    ensures range { IfOk result IsSample }
{
    let seed = number(seed.as_bytes(), 0, u64::MAX)?;
    let nodes = number(nodes.as_bytes(), 1, u64::from(MAX_NODES))?;
    let events = number(events.as_bytes(), nodes, u64::from(MAX_EVENTS))?;
    Ok(Sample {
        seed,
        nodes: nodes as u32,
        events: events as u32,
    })
}

/// The run given by a word and those of two options, with or without probes.
pub(crate) fn service_in(
    id: &str,
    turns: Option<&str>,
    probes: bool,
    log: Option<&str>,
) -> Result<Service, Why>
    ensures said { result ≡ service_in id.now (option_map (λ word. word.now) turns.entry) probes (option_map (λ word. word.now) log.entry) }
    ensures range { IfOk result IsService }
{
    Ok(Service {
        id: id_in(id)?,
        turns: turns_in(turns)?,
        probes,
        log: log_in(log)?,
    })
}

/// The number of turns, from the word of the option.
fn turns_in(word: Option<&str>) -> Result<u64, Why>
    ensures said { result ≡ turns_in (option_map (λ word. word.now) word.entry) }
    ensures range { IfOk result (λ turns. (turns ≤ MAX_TURNS) ⊎ (turns ≡ ENDLESS)) }
{
    match word {
        Some(word) => number(word.as_bytes(), 0, MAX_TURNS),
        None => Ok(ENDLESS),
    }
}

/// The form of the log of inputs, from the word of the option.
fn log_in(word: Option<&str>) -> Result<LogWord, Why>
    ensures { result ≡ log_in (option_map (λ word. word.now) word.entry) }
{
    match word {
        Some(word) => log_by(word),
        None => Ok(LogWord::Inputs),
    }
}

/// The form of the log of inputs, from this word.
fn log_by(word: &str) -> Result<LogWord, Why>
    ensures { result ≡ log_by word.now }
{
    if word == "inputs" {
        Ok(LogWord::Inputs)
    } else if word == "record" {
        Ok(LogWord::Record)
    } else if word == "brief" {
        Ok(LogWord::Brief)
    } else {
        Err(Why::Word)
    }
}

/// The id given by a word, any number.
pub(crate) fn id_in(word: &str) -> Result<u64, Why>
    ensures { result ≡ id_in word.now }
{
    number(word.as_bytes(), 0, u64::MAX)
}

/// The node given by an id and a number of nodes. They need a length of the chain, and then no
/// configuration is read.
pub(crate) fn checked_node_without(
    id: &str,
    nodes: &str,
    chain: Option<&str>,
    config: Option<&str>,
) -> Result<CheckedNode, Why>
    ensures said { result ≡ checked_node_without id.now nodes.now (option_map (λ word. word.now) chain.entry) (option_map (λ word. word.now) config.entry) }
    ensures range { IfOk result IsCheckedNode }
{
    match config {
        Some(_) => Err(Why::Count),
        None => match chain {
            Some(chain) => checked_node_in(id, nodes, chain),
            None => Err(Why::Count),
        },
    }
}

/// The node given by three words.
fn checked_node_in(id: &str, nodes: &str, chain: &str) -> Result<CheckedNode, Why>
    ensures said { result ≡ checked_node_in id.now nodes.now chain.now }
    ensures range { IfOk result IsCheckedNode }
{
    let nodes = number(nodes.as_bytes(), 1, u64::from(MAX_NODES))?;
    let chain = number(chain.as_bytes(), 1, nodes.min(u64::from(MAX_CHAIN)))?;
    let id = number(id.as_bytes(), 1, nodes)?;
    Ok(CheckedNode {
        id: id as u32,
        nodes: nodes as u32,
        chain: chain as u32,
    })
}

/// The number of replies to follow, from the word of the option.
pub(crate) fn times_in(word: Option<&str>) -> Result<Option<u64>, Why>
    ensures said { result ≡ times_in (option_map (λ word. word.now) word.entry) }
    ensures range { IfOk result IsTimes }
{
    match word {
        Some(word) => Ok(Some(number(word.as_bytes(), 1, MAX_FOLLOWED)?)),
        None => Ok(None),
    }
}

/// The first byte to ask for, from the word of the option.
pub(crate) fn start_in(word: Option<&str>) -> Result<Option<u64>, Why>
    ensures said { result ≡ start_in (option_map (λ word. word.now) word.entry) }
    ensures range { IfOk result IsStart }
{
    match word {
        Some(word) => Ok(Some(number(word.as_bytes(), 0, MAX_START)?)),
        None => Ok(None),
    }
}

/// The place of an input in its group, from two flags of which at most one is given.
pub(crate) fn onto_in(appends: bool, resumes: bool) -> Result<Onto, Why>
    ensures { result ≡ onto_in appends resumes }
{
    match (appends, resumes) {
        (false, false) => Ok(Onto::New),
        (true, false) => Ok(Onto::Append),
        (false, true) => Ok(Onto::Resume),
        (true, true) => Err(Why::Count),
    }
}
