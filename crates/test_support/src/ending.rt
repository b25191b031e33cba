//! The end of the program.

ghost use Rattle.std.specs.Prelude.{◌≡◌, ◌↔◌};
ghost use Rattle.test_support.specs.Telling.{stop_text};

use source::memory::NoMemory;
use std::{fmt, io};

/// How the program ended.
#[derive(Clone, Copy)]
pub enum Ending {
    /// 0: all cases are as expected.
    AllAsWanted,
    /// 1: some case is not as expected.
    SomeNotAsWanted,
    /// 3: a file could not be read, or the report could not be written.
    Failed,
    /// 4: a growth was refused.
    OutOfMemory,
}

impl Ending {
    /// The exit status of the process.
    pub fn code(self) -> u8
        ensures as_wanted { (result ≡ 0) ↔ (self ≡ Ending.AllAsWanted) }
        ensures not_as_wanted { (result ≡ 1) ↔ (self ≡ Ending.SomeNotAsWanted) }
        ensures failed { (result ≡ 3) ↔ (self ≡ Ending.Failed) }
        ensures memory { (result ≡ 4) ↔ (self ≡ Ending.OutOfMemory) }
    {
        match self {
            Ending::AllAsWanted => 0,
            Ending::SomeNotAsWanted => 1,
            Ending::Failed => 3,
            Ending::OutOfMemory => 4,
        }
    }

    /// The joint end of two parts: that of the first, unless all was as expected in it.
    pub fn and(self, other: Ending) -> Ending
        ensures { (result ≡ Ending.AllAsWanted) ↔ ((self ≡ Ending.AllAsWanted) × (other ≡ Ending.AllAsWanted)) }
    {
        match self {
            Ending::AllAsWanted => other,
            _ => self,
        }
    }
}

/// Why the program stopped before it had judged all cases.
#[derive(Clone, Copy)]
pub enum CutShort {
    /// A file could not be read, or the report could not be written.
    Failed,
    /// A growth was refused.
    OutOfMemory,
}

impl CutShort {
    /// How the program ends for this reason.
    pub fn ending(self) -> Ending
        ensures failed { (result ≡ Ending.Failed) ↔ (self ≡ CutShort.Failed) }
        ensures memory { (result ≡ Ending.OutOfMemory) ↔ (self ≡ CutShort.OutOfMemory) }
    {
        match self {
            CutShort::Failed => Ending::Failed,
            CutShort::OutOfMemory => Ending::OutOfMemory,
        }
    }

    /// The reason in words.
    #[tactic(auto, unfolding(crate::specs::Telling::stop_text))]
    fn text(self) -> &'static str
        ensures { result.now ≡ stop_text self }
    {
        match self {
            CutShort::Failed => "cannot read it, or write what came of it",
            CutShort::OutOfMemory => "no memory",
        }
    }
}

impl fmt::Display for CutShort {
    ghost use Rattle.std.specs.Prelude.{Some};

    ghost output = { λ stop. Some (stop_text stop) };

    fn fmt<W: fmt::Write>(&self, f: &mut fmt::Formatter<W>) -> fmt::Result {
        f.write_str(self.text())
    }
}

impl From<NoMemory> for CutShort {
    ghost use Rattle.test_support.specs.declared.ending.CutShort.TheVariants.{OutOfMemory};

    ghost from_gives = { λ _ stop. stop ≡ OutOfMemory };

    fn from(_e: NoMemory) -> CutShort {
        CutShort::OutOfMemory
    }
}

impl From<io::Error> for CutShort {
    fn from(e: io::Error) -> CutShort {
        match e.kind() {
            io::ErrorKind::OutOfMemory => CutShort::OutOfMemory,
            _ => CutShort::Failed,
        }
    }
}
