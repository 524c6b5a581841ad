//! The end of a run.
ghost use Rattle.std.specs.Prelude.{◌≡◌};
ghost use Rattle.oc_commands.specs.Ends.{lacks_token, status_of, status_of_check, status_of_config, status_of_configured, status_of_fault, status_of_gen};
ghost use Rattle.oc_commands.specs.Ends.{status_of_get, status_of_load, status_of_put, status_of_records, status_of_replay, status_of_rules, status_of_run, status_of_service};
ghost use Rattle.oc_commands.specs.Ends.{status_of_token, status_of_turns};

use crate::checking::{CheckEnd, ConfiguredEnd};
use crate::configuring::ConfigEnd;
use crate::generating::GenEnd;
use crate::listing::RulesEnd;
use crate::merging::RecordsEnd;
use crate::serving::ServiceEnd;
use crate::token::TokenEnd;
use oc_client::{GetEnd, PutEnd};
use oc_config::ConfigFault;
use oc_keep::{FileError, KeepLoad};
use oc_merge::MergeEnd;
use oc_replay::ReplayEnd;
use oc_service::{NodeEnd, TurnEnd};
use oc_words::Status;

/// The end of a run.
#[derive(Clone, Copy)]
pub enum End {
    /// The help was written.
    Helped,
    /// The output failed while the help was written.
    HelpFailed,
    /// The version was written.
    Versioned,
    /// The output failed while the version was written.
    VersionFailed,
    /// The words make no valid request.
    Misused,
    /// Memory ran out before the words were read.
    NoMemory,
    /// The end of a replay, of a large schedule or of another one.
    Replayed { large: bool, end: ReplayEnd },
    /// The end of the command `gen`.
    Generated(GenEnd),
    /// The end of the command `merge`.
    Merged(RecordsEnd),
    /// The end of the command `rules`.
    Listed(RulesEnd),
    /// The end of the command `check`.
    Checked(CheckEnd),
    /// The end of the command `check` for a node of a configuration.
    CheckedConfigured(ConfiguredEnd),
    /// A client has no token, for this reason, and did nothing.
    NoToken(TokenEnd),
    /// The end of the command `get`.
    Got(GetEnd),
    /// The end of the command `put`.
    Published(PutEnd),
    /// The end of the command `node`.
    Served(ServiceEnd),
}

impl End {
    /// Whether the run ended because a client has no token.
    pub fn lacks_token(self) -> bool
        ensures { result ≡ lacks_token self }
    {
        matches!(self, End::NoToken(_))
    }

    /// The exit status of the program.
    pub fn status(self) -> Status
        ensures { result ≡ status_of self }
    {
        match self {
            End::Helped => Status::Done,
            End::HelpFailed => Status::Failed,
            End::Versioned => Status::Done,
            End::VersionFailed => Status::Failed,
            End::Misused => Status::Usage,
            End::NoMemory => Status::Memory,
            End::Replayed { end, .. } => replay_status(end),
            End::Generated(end) => gen_status(end),
            End::Merged(end) => records_status(end),
            End::Listed(end) => rules_status(end),
            End::Checked(end) => check_status(end),
            End::CheckedConfigured(end) => configured_status(end),
            End::NoToken(end) => token_status(end),
            End::Got(end) => get_status(end),
            End::Published(end) => put_status(end),
            End::Served(end) => service_status(end),
        }
    }
}

fn replay_status(end: ReplayEnd) -> Status
    ensures { result ≡ status_of_replay end }
{
    match end {
        ReplayEnd::Done => Status::Done,
        ReplayEnd::Text { .. } => Status::BadText,
        ReplayEnd::Limit(_) => Status::Limit,
        ReplayEnd::Source | ReplayEnd::Sink => Status::Failed,
        ReplayEnd::Memory => Status::Memory,
    }
}

fn gen_status(end: GenEnd) -> Status
    ensures { result ≡ status_of_gen end }
{
    match end {
        GenEnd::Done => Status::Done,
        GenEnd::Sink => Status::Failed,
        GenEnd::Memory => Status::Memory,
    }
}

fn records_status(end: RecordsEnd) -> Status
    ensures { result ≡ status_of_records end }
{
    match end {
        RecordsEnd::Merged(MergeEnd::Whole) => Status::Done,
        RecordsEnd::Merged(MergeEnd::State { .. } | MergeEnd::Unsent { .. }) => Status::BadText,
        RecordsEnd::Text { .. } => Status::BadText,
        RecordsEnd::Limit(_) => Status::Limit,
        RecordsEnd::Source | RecordsEnd::Sink => Status::Failed,
        RecordsEnd::Memory => Status::Memory,
    }
}

fn rules_status(end: RulesEnd) -> Status
    ensures { result ≡ status_of_rules end }
{
    match end {
        RulesEnd::Done => Status::Done,
        RulesEnd::Config(end) => config_status(end),
        RulesEnd::Sink => Status::Failed,
        RulesEnd::Memory => Status::Memory,
    }
}

fn config_status(end: ConfigEnd) -> Status
    ensures { result ≡ status_of_config end }
{
    match end {
        ConfigEnd::Source => Status::Failed,
        ConfigEnd::Long => Status::Limit,
        ConfigEnd::Fault(fault) => fault_status(fault),
    }
}

fn fault_status(fault: ConfigFault) -> Status
    ensures { result ≡ status_of_fault fault }
{
    match fault {
        ConfigFault::Memory => Status::Memory,
        _ => Status::BadText,
    }
}

fn check_status(end: CheckEnd) -> Status
    ensures { result ≡ status_of_check end }
{
    match end {
        CheckEnd::Done => Status::Done,
        CheckEnd::Load(error) => load_status(error),
        CheckEnd::Sink => Status::Failed,
    }
}

fn configured_status(end: ConfiguredEnd) -> Status
    ensures { result ≡ status_of_configured end }
{
    match end {
        ConfiguredEnd::Config(end) => config_status(end),
        ConfiguredEnd::Stranger => Status::BadText,
        ConfiguredEnd::Checked(end) => check_status(end),
    }
}

fn load_status(error: KeepLoad) -> Status
    ensures { result ≡ status_of_load error }
{
    match error.cause() {
        FileError::Disk => Status::Failed,
        FileError::NotJournal | FileError::BadFrame(_) => Status::BadText,
        FileError::Memory => Status::Memory,
    }
}

fn token_status(end: TokenEnd) -> Status
    ensures { result ≡ status_of_token end }
{
    match end {
        TokenEnd::Source => Status::Failed,
        TokenEnd::Long => Status::Limit,
        TokenEnd::Fault => Status::BadText,
        TokenEnd::Memory => Status::Memory,
    }
}

fn get_status(end: GetEnd) -> Status
    ensures { result ≡ status_of_get end }
{
    match end {
        GetEnd::Done => Status::Done,
        GetEnd::BadUrl | GetEnd::Refused(_) | GetEnd::Redirects | GetEnd::Reply => Status::NotGot,
        GetEnd::Link | GetEnd::Sink => Status::Failed,
        GetEnd::Memory => Status::Memory,
    }
}

fn put_status(end: PutEnd) -> Status
    ensures { result ≡ status_of_put end }
{
    match end {
        PutEnd::Done => Status::Done,
        PutEnd::BadUrl | PutEnd::Refused(_) | PutEnd::Length(_) | PutEnd::Short | PutEnd::Reply =>
            Status::NotGot,
        PutEnd::Link | PutEnd::Input => Status::Failed,
        PutEnd::Memory => Status::Memory,
    }
}

fn service_status(end: ServiceEnd) -> Status
    ensures { result ≡ status_of_service end }
{
    match end {
        ServiceEnd::Config(end) => config_status(end),
        ServiceEnd::Stranger => Status::BadText,
        ServiceEnd::Ran(end) => run_status(end),
    }
}

fn run_status(end: NodeEnd) -> Status
    ensures { result ≡ status_of_run end }
{
    match end {
        NodeEnd::Load(error) => load_status(error),
        NodeEnd::Turned(end) => turns_status(end),
    }
}

fn turns_status(end: TurnEnd) -> Status
    ensures { result ≡ status_of_turns end }
{
    match end {
        TurnEnd::Served => Status::Done,
        TurnEnd::Link | TurnEnd::Disk | TurnEnd::Sink => Status::Failed,
        TurnEnd::Full => Status::Limit,
        TurnEnd::Memory => Status::Memory,
    }
}
