//! How a command ended.

ghost use Rattle.std.specs.Prelude.{◌≡◌};
ghost use Rattle.driver.specs.Statuses.{exit_status};

/// How a command ended.
#[derive(Clone, Copy, Debug, PartialEq, Eq)]
pub enum Status {
    /// 0: what was asked for was written.
    Done,
    /// 1: the program's text has a fault, which standard error reports.
    Refused,
    /// 2: the command line is not one that this program reads.
    BadWords,
    /// 3: a file could not be opened, or a reader or the writer failed.
    Failed,
    /// 4: a growth was refused.
    OutOfMemory,
    /// 5: a line of the recorded history is not one that may come there.
    Differs,
    /// 6: the steps file or the history file has a fault, no cell has a name of `--cells` or `--expect`, a cell of
    /// `--expect` does not hold a number, or the text of `--expect` is not a comparison; standard error reports which.
    BadInput,
    /// 7: a call is not settled by the given number of turns.
    Unsettled,
    /// 8: a thread found another history than it had left.
    Strange,
    /// 9: an end is not as `--expect` says.
    Unexpected,
}

impl Status {
    /// The exit status of the process.
    pub fn code(self) -> u8
        ensures { result ≡ exit_status self }
    {
        match self {
            Status::Done => 0,
            Status::Refused => 1,
            Status::BadWords => 2,
            Status::Failed => 3,
            Status::OutOfMemory => 4,
            Status::Differs => 5,
            Status::BadInput => 6,
            Status::Unsettled => 7,
            Status::Strange => 8,
            Status::Unexpected => 9,
        }
    }
}
