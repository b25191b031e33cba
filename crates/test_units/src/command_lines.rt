//! Tests of the crate `driver_words`: of what `clap` refuses, which no clause says, and of a line of each form.

use driver_words::words;
use source::memory::NoMemory;
use std::alloc::{AllocError, Global};
use std::test::Fail;
use test_support::judging::compare;

/// The words of the line.
fn parted(alloc: Global, line: &str) -> Result<Vec<&str>, AllocError> {
    let mut parted = Vec::new(alloc);
    for word in line.split(' ') {
        parted.push(word)?;
    }
    Ok(parted)
}

/// The request of the line, or the kind of the error.
fn told(alloc: Global, line: &str) -> Result<String, Fail> {
    let parted = parted(alloc, line)?;
    let told = match words(alloc, parted.as_slice()) {
        Ok(line) => format!(in alloc; "{line:?}")?,
        Err(error) => format!(in alloc; "{:?}", error.kind())?,
    };
    // A failed allocation ends a test by this error, and never by another answer.
    if told.as_str() == "OutOfMemory" {
        return Err(NoMemory.into());
    }
    Ok(told)
}

/// Checks each case: a command line, ` => ` and the expected request.
fn judge(alloc: Global, cases: &str) -> Result<(), Fail> {
    for case in cases.trim().split('\n') {
        let (line, want) = case.split_once(" => ").unwrap_or((case, ""));
        let told = told(alloc, line)?;
        compare(alloc, told.as_str(), want)?;
    }
    Ok(())
}

#[test]
fn reads_lines(rt: HostRuntime) -> Result<(), Fail> {
    judge(
        rt.alloc(),
        "
autolock check F => Line { file: \"F\", request: Alone(Report(Check { source: false })) }
autolock check --source F => Line { file: \"F\", request: Alone(Report(Check { source: true })) }
autolock explain F => Line { file: \"F\", request: Alone(Explain { json: false, color: Auto }) }
autolock explain F --json => Line { file: \"F\", request: Alone(Explain { json: true, color: Auto }) }
autolock explain --color always F => Line { file: \"F\", request: Alone(Explain { json: false, color: Always }) }
autolock explain --color=never F => Line { file: \"F\", request: Alone(Explain { json: false, color: Never }) }
autolock order F => Line { file: \"F\", request: Alone(Order) }
autolock format F => Line { file: \"F\", request: Alone(Format) }
autolock lsp => Line { file: \"\", request: Lsp }
autolock listing F => Line { file: \"F\", request: Alone(Report(Listing { places: false })) }
autolock listing --places F => Line { file: \"F\", request: Alone(Report(Listing { places: true })) }
autolock emit F => Line { file: \"F\", request: Alone(Report(Emit(Emission { header: false, prefix: \"al\", lines: false, file: \"F\" }))) }
autolock emit --header --prefix bank F => Line { file: \"F\", request: Alone(Report(Emit(Emission { \
    header: true, prefix: \"bank\", lines: false, file: \"F\" }))) }
autolock emit --lines F => Line { file: \"F\", request: Alone(Report(Emit(Emission { header: false, prefix: \"al\", lines: true, file: \"F\" }))) }
autolock serial F => Line { file: \"F\", request: Alone(Report(Serial { turns: 1000000, changed: false })) }
autolock serial --turns 7 F => Line { file: \"F\", request: Alone(Report(Serial { turns: 7, changed: false })) }
autolock serial --turns=0 F => Line { file: \"F\", request: Alone(Report(Serial { turns: 0, changed: false })) }
autolock serial --turns 1000000000 F => Line { file: \"F\", request: Alone(Report(Serial { turns: 1000000000, changed: false })) }
autolock serial --changed F => Line { file: \"F\", request: Alone(Report(Serial { turns: 1000000, changed: true })) }
autolock outcomes F => Line { file: \"F\", request: Alone(Report(Outcomes(OutcomesOptions { \
    turns: 1000000, count: 100000, seed: 0, cells: None, answers: false, full: false, expect: None }))) }
autolock outcomes --seed 5 --count 3 F => Line { file: \"F\", request: Alone(Report(Outcomes(OutcomesOptions { \
    turns: 1000000, count: 3, seed: 5, cells: None, answers: false, full: false, expect: None }))) }
autolock outcomes --cells n,a[0] F => Line { file: \"F\", request: Alone(Report(Outcomes(OutcomesOptions { \
    turns: 1000000, count: 100000, seed: 0, cells: Some(\"n,a[0]\"), answers: false, full: false, expect: None }))) }
autolock outcomes --answers --full F => Line { file: \"F\", request: Alone(Report(Outcomes(OutcomesOptions { \
    turns: 1000000, count: 100000, seed: 0, cells: None, answers: true, full: true, expect: None }))) }
autolock outcomes --turns 7 F => Line { file: \"F\", request: Alone(Report(Outcomes(OutcomesOptions { \
    turns: 7, count: 100000, seed: 0, cells: None, answers: false, full: false, expect: None }))) }
autolock outcomes --expect a==3 F => Line { file: \"F\", request: Alone(Report(Outcomes(OutcomesOptions { \
    turns: 1000000, count: 100000, seed: 0, cells: None, answers: false, full: false, expect: Some(\"a==3\") }))) }
autolock schedule F => Line { file: \"F\", request: Alone(Report(Schedule(ScheduleOptions { seed: 0, length: 100, worst: false }))) }
autolock schedule --seed 3 --length 7 --worst F => Line { file: \"F\", request: Alone(Report(Schedule(ScheduleOptions { seed: 3, length: 7, worst: true }))) }
autolock simulate F S => Line { file: \"F\", request: Beside(Simulate, \"S\") }
autolock trace F S => Line { file: \"F\", request: Beside(Trace { sections: false, all: false }, \"S\") }
autolock trace F --sections S => Line { file: \"F\", request: Beside(Trace { sections: true, all: false }, \"S\") }
autolock run F => Line { file: \"F\", request: Alone(Run(RunOptions { seed: None, times: None })) }
autolock trace --all F S => Line { file: \"F\", request: Beside(Trace { sections: false, all: true }, \"S\") }
autolock run --seed 3 F => Line { file: \"F\", request: Alone(Run(RunOptions { seed: Some(3), times: None })) }
autolock run --times 20 F => Line { file: \"F\", request: Alone(Run(RunOptions { seed: None, times: Some(20) })) }
autolock replay F H => Line { file: \"F\", request: Beside(Replay(ReplayOptions { turns: 1000000, why: false, open: false }), \"H\") }
autolock replay F --turns 7 H => Line { file: \"F\", request: Beside(Replay(ReplayOptions { turns: 7, why: false, open: false }), \"H\") }
autolock replay --why F H => Line { file: \"F\", request: Beside(Replay(ReplayOptions { turns: 1000000, why: true, open: false }), \"H\") }
autolock replay --open F H => Line { file: \"F\", request: Beside(Replay(ReplayOptions { turns: 1000000, why: false, open: true }), \"H\") }
",
    )
}

#[test]
fn refuses_words(rt: HostRuntime) -> Result<(), Fail> {
    judge(
        rt.alloc(),
        "
autolock => MissingSubcommand
autolock --help => DisplayHelp
autolock serial --help => DisplayHelp
autolock --version => DisplayVersion
autolock serial --version => UnknownArgument
autolock walk => InvalidSubcommand
autolock check => MissingRequiredArgument
autolock check --help => DisplayHelp
autolock check --turns 3 F => UnknownArgument
autolock check F G => UnknownArgument
autolock explain => MissingRequiredArgument
autolock explain F G => UnknownArgument
autolock explain --color red F => ValueValidation
autolock order => MissingRequiredArgument
autolock order F G => UnknownArgument
autolock serial => MissingRequiredArgument
autolock serial F G => UnknownArgument
autolock serial --count 3 F => UnknownArgument
autolock outcomes => MissingRequiredArgument
autolock outcomes F G => UnknownArgument
autolock outcomes --count 1000000001 F => ValueValidation
autolock run => MissingRequiredArgument
autolock run --turns 3 F => UnknownArgument
autolock run --times 0 F => ValueValidation
autolock run --times 1000001 F => ValueValidation
autolock trace F => MissingRequiredArgument
autolock replay F => MissingRequiredArgument
autolock replay F G H => UnknownArgument
autolock serial --turns 1000000001 F => ValueValidation
autolock serial --turns -1 F => UnknownArgument
",
    )
}
