//! The reasons why words that `clap` accepts request nothing.

ghost use Rattle.std.specs.Prelude.{◌≡◌};
ghost use Rattle.driver_words.specs.Unasked.{kind_for};

use clap::error::ErrorKind;

/// The reason why words request nothing.
#[derive(Clone, Copy)]
pub enum Unasked {
    /// The command does not exist.
    NoCommand,
    /// The code does not exist.
    NoCode,
    /// The prefix is invalid for names of C.
    BadPrefix,
    /// The word for when colours are used is invalid.
    BadColor,
}

impl Unasked {
    /// The kind of the error.
    pub fn kind(self) -> ErrorKind
        ensures { result ≡ kind_for self }
    {
        match self {
            Unasked::NoCommand => ErrorKind::MissingSubcommand,
            Unasked::NoCode | Unasked::BadPrefix | Unasked::BadColor => ErrorKind::ValueValidation,
        }
    }

    /// The message for the user.
    pub fn text(self) -> &'static str {
        match self {
            Unasked::NoCommand => "a command is missing",
            Unasked::NoCode => {
                "there is no such code: they are E01 to E20; a file of that name is written ./NAME"
            }
            Unasked::BadPrefix => {
                "--prefix takes a letter, then at most 31 letters and digits, and not AL or autolock"
            }
            Unasked::BadColor => "--color takes auto, always or never",
        }
    }
}
