ghost use Rattle.std.specs.Prelude.{◌≡◌, ◌↔◌, ◌<◌, IfSome, IsSome};
ghost use Rattle.httpdate.specs.Date.{unix_secs};

use httpdate::HttpDate;

/// A content that a request asks for: the bytes of a group from its start, or those of a file of a folder.
#[derive(Clone, Copy)]
pub struct Content {
    /// Its length in bytes; of a group that may still grow, its length now.
    pub length: u64,
    pub source: Source,
}

/// Where the bytes of a content are.
#[derive(Clone, Copy)]
pub enum Source {
    /// They are the first bytes of a group. `is_open` where their number is not settled: the group is not sealed, and the
    /// request names no length.
    Group {
        is_open: bool,
    },
    /// They are a file in a group whose name has this length. `at` is the place of the file in the group.
    File {
        at: u64,
        name_len: u64,
        changed: Option<HttpDate>,
    },
}

/// The time of a file's last change, which is some seconds after 1970; `None` from the year 10000 on, for which there is no
/// text.
pub fn change_at(seconds: u64) -> Option<HttpDate>
    ensures some { IsSome result ↔ (seconds < 253_402_300_800) }
    ensures time { IfSome result (λ change. unix_secs change ≡ seconds) }
{
    match HttpDate::from_unix_secs(seconds) {
        Ok(change) => Some(change),
        Err(_) => None,
    }
}
