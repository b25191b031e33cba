//! What a command line requests.

use source::fault::Code;

/// The default of `--turns`: the most turns of each execution of a loop.
pub const DEFAULT_TURNS: u64 = 1_000_000;

/// The default of `--count`: the most orders that are tried.
pub const DEFAULT_COUNT: u64 = 100_000;

/// The default of `--seed`: the seed of random choices.
pub const DEFAULT_SEED: u64 = 0;

/// The default of `--length`: the number of items of a steps file.
pub const DEFAULT_LENGTH: u64 = 100;

/// A command line: a request, and the program's file.
#[derive(Clone, Copy, Debug, PartialEq, Eq)]
pub struct Line<'a> {
    /// The name of the file with the program's text, as given; for a request that reads none, the argument in its
    /// place.
    pub file: &'a str,
    /// The request.
    pub request: Request<'a>,
}

/// A request, by the files that it reads.
#[derive(Clone, Copy, Debug, PartialEq, Eq)]
pub enum Request<'a> {
    /// `explain CODE`: the meaning of a code. No file is read.
    Code(Code),
    /// `lsp`: serve an editor over the input and the output of the process. No file is read.
    Lsp,
    /// A request that reads the program's file alone.
    Alone(Alone<'a>),
    /// A request that also reads another file, with this name as given.
    Beside(Beside, &'a str),
}

/// A request that reads the program's file alone.
#[derive(Clone, Copy, Debug, PartialEq, Eq)]
pub enum Alone<'a> {
    /// A text about the program, if it is accepted.
    Report(Report<'a>),
    /// `order`: the order of the program's lock classes as a graph, even if it has a cycle.
    Order,
    /// `explain`: the fault of the program, with its place in the source and a remedy.
    Explain {
        /// Whether it is written as JSON.
        json: bool,
        /// When it is written in colours.
        color: Color,
    },
    /// `format`: the text in its layout.
    Format,
    /// `run`: run the calls of each thread in a thread of its own.
    Run(RunOptions),
}

/// When a text is written in colours.
#[derive(Clone, Copy, Debug, PartialEq, Eq)]
pub enum Color {
    /// If it is written to a terminal.
    Auto,
    /// Always.
    Always,
    /// Never.
    Never,
}

/// How the calls of threads are run.
#[derive(Clone, Copy, Debug, PartialEq, Eq)]
pub struct RunOptions {
    /// The seed of the delays of threads, if they are delayed.
    pub seed: Option<u64>,
    /// The number of runs, whose results are written together; without it, one run, whose history is written.
    pub times: Option<u64>,
}

/// A text about an accepted program.
#[derive(Clone, Copy, Debug, PartialEq, Eq)]
pub enum Report<'a> {
    /// `check`: the order of its locks, and which ones are acquired before each statement.
    Check {
        /// Whether each place has the helper that it is in, and its line in the source.
        source: bool,
    },
    /// `listing`: the instructions of its sections.
    Listing {
        /// Whether each has the line and the column of its statement.
        places: bool,
    },
    /// `serial`: the history of all its calls, run one after another.
    Serial {
        /// The most turns of each execution of a loop.
        turns: u64,
        /// Whether cells that have their initial value are left out.
        changed: bool,
    },
    /// `outcomes`: the final values of its cells, over the orders of its calls.
    Outcomes(OutcomesOptions<'a>),
    /// `schedule`: a steps file for it.
    Schedule(ScheduleOptions),
    /// `emit`: its sections in C, with their locks.
    Emit(Emission<'a>),
}

/// The options of a steps file that is written.
#[derive(Clone, Copy, Debug, PartialEq, Eq)]
pub struct ScheduleOptions {
    /// The seed of its items.
    pub seed: u64,
    /// The number of its items.
    pub length: u64,
    /// Whether it makes threads wait for each other as much as possible.
    pub worst: bool,
}

/// The options of the C text of a program.
#[derive(Clone, Copy, Debug, PartialEq, Eq)]
pub struct Emission<'a> {
    /// Whether it is only the header.
    pub header: bool,
    /// The prefix of names in C: a letter, then letters and digits, at most 32 bytes.
    pub prefix: &'a str,
    /// Whether the C of each statement is marked with the statement's line, for debuggers and sanitizers.
    pub lines: bool,
    /// The name of the program's file, as given, for these marks.
    pub file: &'a str,
}

/// The options of the orders of a program's calls, and of the text about their ends.
#[derive(Clone, Copy, Debug, PartialEq, Eq)]
pub struct OutcomesOptions<'a> {
    /// The most turns of each execution of a loop.
    pub turns: u64,
    /// The most orders that are tried.
    pub count: u64,
    /// The seed of random orders, if the program has more.
    pub seed: u64,
    /// The names of the cells by which ends differ, with commas between them; without it, all cells.
    pub cells: Option<&'a str>,
    /// Whether ends also differ by how the calls ended.
    pub answers: bool,
    /// Whether each end is written in full, and not only its differences from the first one.
    pub full: bool,
    /// A comparison of sums that each end is expected to satisfy, if any.
    pub expect: Option<&'a str>,
}

/// A request about an accepted program and another file.
#[derive(Clone, Copy, Debug, PartialEq, Eq)]
pub enum Beside {
    /// `simulate`: the world after the steps of a steps file.
    Simulate,
    /// `trace`: the steps of a steps file, and the world after them.
    Trace {
        /// Whether the instructions of sections are left out.
        sections: bool,
        /// Whether steps that do nothing are written.
        all: bool,
    },
    /// `replay`: whether a recorded history is one of the program's.
    Replay(ReplayOptions),
}

/// The options of the check of a recorded history.
#[derive(Clone, Copy, Debug, PartialEq, Eq)]
pub struct ReplayOptions {
    /// The most turns of each execution of a loop.
    pub turns: u64,
    /// Whether the lines that may be at the place of a differing one are written.
    pub why: bool,
    /// Whether its calls may be any calls, and not only those of the program's scripts.
    pub open: bool,
}
