//! The statuses with which the program ends.
ghost use Rattle.std.specs.Prelude.{◌≡◌};
ghost use Rattle.oc_words.specs.Status.{number_of};

/// The end of a run of the program.
#[derive(Clone, Copy)]
pub enum Status {
    /// The work was completed, or the words asked for help or the version.
    Done = 0,
    /// An input, an output, a disk or a link failed.
    Failed = 1,
    /// The words make no valid request.
    Usage = 2,
    /// A text or a file that was read is invalid.
    BadText = 3,
    /// Memory ran out.
    Memory = 4,
    /// A limit was exceeded.
    Limit = 5,
    /// A download or a publishing was not done: a bad URL, a status, too many redirections, a bad
    /// reply, or a length of the group that does not fit the input.
    NotGot = 6,
}

impl Status {
    /// The exit status of the process.
    pub fn number(self) -> u8
        ensures { result ≡ number_of self }
    {
        self as u8
    }
}
