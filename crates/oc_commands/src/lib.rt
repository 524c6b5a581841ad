//! The commands of the program: the effect of each, its ends, and the status and the error line of
//! each end.
//!
//! Each command is a file: `replaying`, `generating`, `merging`, `listing` (`rules`), `checking`,
//! `getting`, `putting` and `serving` (`node`). Besides these, `helping` answers `--help` and
//! `--version`, `token` reads the token of a client, and `progress` writes a client's progress
//! lines. [`End`] is the end of any of them, from which [`End::status`] and [`tell`] make the
//! status and the line on the error output. `Outside` in `specs/` is the subject of their
//! contracts, and `Happened` gives the effect of each end on it.
//!
//! If a replay is done, [`headline_holds`] is part of that: the properties of every world of the
//! schedule, also inside settle and heal, and the results and reports of settle and heal.
//! [`limits_are_as_published`] states the values of the limits that all these contracts cite.
//!
//! `check` shows the node recovered from three files, by [`recovered_text`]: the block of `show`
//! and the block of `held` of that node (`Shows`), or the reason why there is none. A load writes
//! only the header of a new file, so at every moment a crash leaves the files as a crash at the
//! start would have left them.
#![tactic(auto)]

mod checking;
mod client_lines;
mod command_texts;
mod configuring;
mod ending;
mod generating;
mod getting;
mod headline;
mod helping;
mod limits;
mod lines;
mod listing;
mod loading;
mod merging;
mod progress;
mod putting;
mod replaying;
mod serving;
mod showing;
mod telling;
mod texts;
mod token;

pub use checking::{CheckEnd, ConfiguredEnd, check_configured, check_files};
pub use configuring::ConfigEnd;
pub use ending::End;
pub use generating::{GenEnd, write_sample};
pub use getting::download;
pub use headline::headline_holds;
pub use helping::{write_help, write_version};
pub use limits::limits_are_as_published;
pub use listing::{RulesEnd, list_rules};
pub use loading::{Recovered, recovered_text};
pub use merging::{RecordsEnd, merge_input};
pub use oc_words::Status;
pub use progress::{Counting, error_of, progress_computes, progress_on};
pub use putting::publish;
pub use replaying::{replay_input, scale_of};
pub use serving::{Served, ServiceEnd, run_service};
pub use telling::tell;
pub use texts::{help, usage};
pub use token::{MAX_TOKEN_BYTES, TokenEnd, take_token};
