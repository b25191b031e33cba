//! The formats of a history.

ghost use Rattle.std.specs.Prelude.{◌≡◌};
ghost use Rattle.input_files.specs.Lines.{header_of};

/// The format of a history, which its first line names: what the lines of calls hold.
#[derive(Clone, Copy, PartialEq, Eq, Debug)]
pub enum Format {
    /// `history 1`: the calls, in the order of their ends.
    One,
    /// `history 2`: also the length of the history when each call began.
    Two,
}

impl Format {
    /// The first line of a history, without its line feed.
    pub fn header(self) -> &'static str
        ensures { result.now ≡ header_of self }
    {
        match self {
            Format::One => "history 1",
            Format::Two => "history 2",
        }
    }
}
