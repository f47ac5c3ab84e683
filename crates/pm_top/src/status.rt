//! How a call ends.

ghost use Rattle.std.specs.Prelude.{◌≡◌};
ghost use Rattle.pm_top.specs.Statuses.{status_of, code_of};

/// How a call ends.
#[derive(Clone, Copy, Debug, PartialEq, Eq)]
pub enum Status {
    /// The words' work is done.
    Done,
    /// The words aren't a command.
    Usage,
    /// A field of the configuration is refused.
    Misconfigured,
    /// A call on disk or console failed.
    Failed,
    /// Memory ran out.
    Memory,
    /// A record of the store's log, or a page, is bad.
    Damaged,
    /// The script passes a limit.
    Long,
}

impl Status {
    /// The number that the process ends with.
    pub fn code(self) -> u8
        ensures number { result ≡ code_of self }
        ensures status { status_of result ≡ self }
    {
        match self {
            Status::Done => 0,
            Status::Usage => 1,
            Status::Misconfigured => 2,
            Status::Failed => 3,
            Status::Memory => 4,
            Status::Damaged => 5,
            Status::Long => 6,
        }
    }
}
