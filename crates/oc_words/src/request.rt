ghost use Rattle.std.specs.Prelude.{◌≡◌, option_map};
ghost use Rattle.oc_words.specs.Paths.{file_of, folder_of, node_of, token_file_of};

use crate::name::Name;

/// The greatest number of events of a schedule that is generated.
pub const MAX_EVENTS: u32 = 99_999;

/// The greatest number of turns that one run of a node may be asked for.
pub const MAX_TURNS: u64 = 1_000_000_000;

/// The number of turns of a node that serves until it is stopped: more than any run reaches.
pub const ENDLESS: u64 = u64::MAX;

/// The greatest number of replies that one download may be asked to follow.
pub const MAX_FOLLOWED: u64 = 1_000_000;

/// The request that the words make.
#[derive(Debug, Drop)]
pub enum Invocation {
    /// Replays the schedule in this file, or on the input, and writes its report or its summary. A
    /// large schedule gives the summary.
    Replay {
        large: bool,
        summary: bool,
        file: Option<Name>,
    },
    /// Merges the records of running nodes on the input into one schedule.
    Merge,
    /// Generates a schedule from a seed.
    Gen(Sample),
    /// Runs a node.
    Node(Service, Paths),
    /// Shows the recovery of a node's files in this folder, or in the present one.
    Check(CheckedNode, Option<Name>),
    /// Shows the recovery of the files of the node with this id, one of a configuration. The id is
    /// any number.
    CheckConfigured(u64, Paths),
    /// Downloads a URL.
    Get(Download),
    /// Publishes the input.
    Put(Upload),
    /// Lists the access rules of the configuration in this file, or on the input.
    Rules(Option<Name>),
    /// Prints the help.
    Help,
    /// Prints the version.
    Version,
}

/// The paths of a node's configuration and files.
#[derive(Debug, Drop)]
pub struct Paths {
    /// The file of the configuration; none if it is on the input.
    pub config: Option<Name>,
    /// The folder of the node's files; none for the present one.
    pub folder: Option<Name>,
}

impl Invocation {
    /// The id of the node to run; none if no node is run.
    pub fn node(&self) -> Option<u64>
        ensures { result ≡ node_of self.now }
    {
        match self {
            Invocation::Node(service, _) => Some(service.id),
            Invocation::Replay { .. }
            | Invocation::Merge
            | Invocation::Gen(_)
            | Invocation::Check(..)
            | Invocation::CheckConfigured(..)
            | Invocation::Get(_)
            | Invocation::Put(_)
            | Invocation::Rules(_)
            | Invocation::Help
            | Invocation::Version => None,
        }
    }

    /// The file that is read instead of the input; none if the input is read, or nothing.
    pub fn file(&self) -> Option<&str>
        ensures { option_map (λ name. name.now) result ≡ file_of self.now }
    {
        match self {
            Invocation::Replay { file, .. } => text_of(file),
            Invocation::Node(_, paths) | Invocation::CheckConfigured(_, paths) => text_of(
                &paths.config,
            ),
            Invocation::Rules(config) => text_of(config),
            Invocation::Merge
            | Invocation::Gen(_)
            | Invocation::Check(..)
            | Invocation::Get(_)
            | Invocation::Put(_)
            | Invocation::Help
            | Invocation::Version => None,
        }
    }

    /// The folder of the three files of a node; none for the present one, or if no node's files are
    /// used.
    pub fn folder(&self) -> Option<&str>
        ensures { option_map (λ name. name.now) result ≡ folder_of self.now }
    {
        match self {
            Invocation::Node(_, paths) | Invocation::CheckConfigured(_, paths) => text_of(
                &paths.folder,
            ),
            Invocation::Check(_, folder) => text_of(folder),
            Invocation::Replay { .. }
            | Invocation::Merge
            | Invocation::Gen(_)
            | Invocation::Get(_)
            | Invocation::Put(_)
            | Invocation::Rules(_)
            | Invocation::Help
            | Invocation::Version => None,
        }
    }

    /// The file of a client's token; none if there is none, or if the request is no client's.
    pub fn token_file(&self) -> Option<&str>
        ensures { option_map (λ name. name.now) result ≡ token_file_of self.now }
    {
        match self {
            Invocation::Get(download) => text_of(&download.token_file),
            Invocation::Put(upload) => text_of(&upload.token_file),
            Invocation::Replay { .. }
            | Invocation::Merge
            | Invocation::Gen(_)
            | Invocation::Node(..)
            | Invocation::Check(..)
            | Invocation::CheckConfigured(..)
            | Invocation::Rules(_)
            | Invocation::Help
            | Invocation::Version => None,
        }
    }
}

/// The text of a name, if there is one.
pub fn text_of(name: &Option<Name>) -> Option<&str>
    ensures { option_map (λ name. name.now) result ≡ name.now }
{
    match name {
        Some(name) => Some(name.as_str()),
        None => None,
    }
}

/// The schedule to be generated by `gen`.
#[derive(Clone, Copy, Debug, PartialEq, Eq)]
pub struct Sample {
    /// The seed, any number.
    pub seed: u64,
    /// The number of nodes, from 1 to 1,024.
    pub nodes: u32,
    /// The number of events, from that of the nodes to 99,999.
    pub events: u32,
}

/// The run of a node by `node`.
#[derive(Clone, Copy, Debug, PartialEq, Eq)]
pub struct Service {
    /// The id of the node, any number.
    pub id: u64,
    /// The number of turns: 0 to 1,000,000,000, or [`ENDLESS`].
    pub turns: u64,
    /// Whether the node probes its peers.
    pub probes: bool,
    /// The form of the log of inputs.
    pub log: LogWord,
}

/// The form in which a node logs its inputs, as given by `--log`.
#[derive(Clone, Copy, Debug, PartialEq, Eq)]
pub enum LogWord {
    /// `inputs`: a line for each input.
    Inputs,
    /// `record`: a line for each input, before its frame.
    Record,
    /// `brief`: lines for people and log collectors.
    Brief,
}

/// The node to be checked by `check`: one of a network.
#[derive(Clone, Copy, Debug, PartialEq, Eq)]
pub struct CheckedNode {
    /// The id, from 1 to the number of nodes.
    pub id: u32,
    /// The number of nodes, from 1 to 1,024.
    pub nodes: u32,
    /// The number of chain members, from 1 to 16 and at most that of nodes.
    pub chain: u32,
}

/// The download by `get`.
#[derive(Debug, Drop)]
pub struct Download {
    /// The address to download.
    pub address: Name,
    /// The number of replies to follow, from 1 to 1,000,000; none for a single download.
    pub times: Option<u64>,
    /// The first byte to ask for, up to 2^40; none if the address gives it.
    pub start: Option<u64>,
    /// The file of the client's token.
    pub token_file: Option<Name>,
    /// Whether progress lines are written.
    pub progress: bool,
}

/// The publishing by `put`.
#[derive(Debug, Drop)]
pub struct Upload {
    /// The address of the group.
    pub address: Name,
    /// The place of the input in the group.
    pub onto: Onto,
    /// Whether the group is sealed after the input.
    pub seals: bool,
    /// Whether each read of the input is sent at once.
    pub live: bool,
    /// The file of the client's token.
    pub token_file: Option<Name>,
    /// Whether progress lines are written.
    pub progress: bool,
}

/// The place of an input in its group.
#[derive(Clone, Copy, Debug, PartialEq, Eq)]
pub enum Onto {
    /// A group that has no bytes yet.
    New,
    /// The present end of the group.
    Append,
    /// A group that has the first bytes of this very input already; only the rest is sent.
    Resume,
}
