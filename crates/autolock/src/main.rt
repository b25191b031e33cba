//! The program `autolock`: reads its words, opens the files that they name, and runs the engine of the command.
//!
//! It exits with 0 where what was asked for was written, 1 where the program's text has a fault (for `lsp`: where the editor
//! left without asking to shut down), 2 where the command line is not one of its own, 3 where reading or writing failed, 4
//! where memory ran out, 5 where a recorded history differs, 6 where the steps file or the history file has a fault, 7 where
//! a call is not settled by the given turns, 8 where a thread found another history than it had left, 9 where an end is not
//! as expected; `--help` and `--version` exit with 0.
#![tactic(auto)]

mod watch;

ghost use Rattle.std.specs.Prelude.{◌≡◌, ◌≢◌, ◌⊎◌, false, IfOk, codes, map, string_bytes};
ghost use Rattle.autolock.specs.Asked.{files_of, NamesOneOf, IsAsked};
ghost use Rattle.clap.specs.Values.{kind_of};
ghost use Rattle.driver.specs.{Tells, cannot_read, cannot_write, no_memory, name_of, reading_failed, writing_failed};

use clap::Error;
use clap::error::ErrorKind;
use driver::{Sink, SourceText, Status, Streams, explain_code, lsp, serve, serve_beside};
use driver_words::{Alone, Color, Line, Request, words};
use lsp_protocol::{Incoming, Outgoing};
use std::alloc::{AllocError, Global};
use std::env::VarError;
use std::fs::File;
use std::io::{BufReader, IsTerminal, Read, Write};
use std::process::ExitCode;
use std::sync::Wait;
use std::thread::{Threads, join};
use std::{env, fs, io};
use watch::Work;

/// The file named `file`, which can be read if it can be opened.
fn source_text<'a>(rt: &HostRuntime, file: &'a str) -> SourceText<'a, File>
    ensures name { name_of result ≡ file.entry.now }
    ensures readable { reading_failed result ≡ false }
{
    match fs::open(rt, file) {
        Ok(opened) => SourceText::new(file, opened),
        Err(_) => SourceText::missing(file),
    }
}

/// Whether standard output should be coloured: it is a terminal, and `NO_COLOR` is unset or empty.
fn wants_color(rt: &HostRuntime) -> bool {
    if !rt.stdout().is_terminal() {
        return false;
    }
    match env::var(rt, "NO_COLOR") {
        Ok(value) => value.is_empty(),
        Err(VarError::NotPresent) => true,
        Err(_) => false,
    }
}

/// `color` with `Auto` replaced by what the terminal asks for.
fn settled(rt: &HostRuntime, color: Color) -> Color {
    match color {
        Color::Auto if wants_color(rt) => Color::Always,
        Color::Auto => Color::Never,
        Color::Always | Color::Never => color,
    }
}

/// `request` with its colours settled.
fn with_settled_color<'a>(rt: &HostRuntime, request: Alone<'a>) -> Alone<'a> {
    match request {
        Alone::Explain { json, color } => Alone::Explain {
            json,
            color: settled(rt, color),
        },
        _ => request,
    }
}

/// Serves an editor over standard input and output.
fn serve_editor<O: Write, E: Write>(rt: &HostRuntime, streams: &mut Streams<O, E>) -> Status
    ensures words { result ≢ Status.BadWords }
    ensures failed { result ≡ Status.Failed → Tells E.contents streams.old.err streams.new.err
        (cannot_read (codes "standard input"))
        ⊎ Tells E.contents streams.old.err streams.new.err cannot_write }
    ensures memory { result ≡ Status.OutOfMemory → Tells E.contents streams.old.err streams.new.err no_memory }
{
    let Ok(reader) = BufReader::new(rt.alloc(), rt.stdin()) else {
        streams.tell_no_memory();
        return Status::OutOfMemory;
    };
    let mut incoming = Incoming::new(reader);
    let mut outgoing = Outgoing::new(rt.stdout());
    lsp(rt.alloc(), &mut incoming, &mut outgoing, streams)
}

/// Opens the files of a command line, and answers its request, with threads from `threads`. No line that was read ends
/// with status 2. With status 3 standard error gets that one of its files was not read (no clause says which) or that
/// writing failed; with status 4 that memory ran out.
fn run_line<R: Threads + Wait + Sync, O: Write, E: Write>(
    rt: &HostRuntime,
    threads: &R,
    line: Line<'_>,
    streams: &mut Streams<O, E>,
) -> Status
    requires { writing_failed streams.old.out ≡ false }
    ensures words { result ≢ Status.BadWords }
    ensures failed { result ≡ Status.Failed → NamesOneOf (Tells E.contents streams.old.err streams.new.err)
        (files_of line.entry)
        ⊎ Tells E.contents streams.old.err streams.new.err cannot_write }
    ensures memory { result ≡ Status.OutOfMemory → Tells E.contents streams.old.err streams.new.err no_memory }
{
    match line.request {
        Request::Code(code) => explain_code(rt.alloc(), code, streams),
        Request::Lsp => serve_editor(rt, streams),
        Request::Alone(request) => {
            let mut source = source_text(rt, line.file);
            let request = with_settled_color(rt, request);
            serve(threads, rt.alloc(), request, &mut source, streams)
        }
        Request::Beside(request, other_file) => {
            let mut program = source_text(rt, line.file);
            let mut other = source_text(rt, other_file);
            serve_beside(rt.alloc(), request, &mut program, &mut other, streams)
        }
    }
}

/// Prints the report of `clap` on the command line: help and the version on standard output, anything else on standard
/// error. It ends with status 4 where memory ran out, with 0 or 3 where help or the version was asked for, and
/// otherwise with 2. The streams get at most a message, where memory ran out or the output could not be written.
fn tell_words<O: Write, E: Write>(
    rt: &HostRuntime,
    error: &Error,
    streams: &mut Streams<O, E>,
) -> Status
    ensures memory { kind_of error.now ≡ ErrorKind.OutOfMemory → result ≡ Status.OutOfMemory }
    ensures asked { IsAsked (kind_of error.now) → (result ≡ Status.Done) ⊎ (result ≡ Status.Failed) }
    ensures bad { kind_of error.now ≢ ErrorKind.OutOfMemory → (IsAsked (kind_of error.now) → ⊥)
        → result ≡ Status.BadWords }
    ensures memory_err { kind_of error.now ≡ ErrorKind.OutOfMemory
        → Tells E.contents streams.old.err streams.new.err no_memory }
    ensures asked_err { result ≡ Status.Failed → Tells E.contents streams.old.err streams.new.err cannot_write }
    ensures quiet { result ≢ Status.OutOfMemory → result ≢ Status.Failed → streams.new.err ≡ streams.old.err }
{
    match error.kind() {
        ErrorKind::OutOfMemory => {
            streams.tell_no_memory();
            Status::OutOfMemory
        }
        ErrorKind::DisplayHelp | ErrorKind::DisplayVersion => match error.print(rt) {
            Ok(()) => Status::Done,
            Err(_) => {
                streams.tell_cannot_write();
                Status::Failed
            }
        },
        _ => {
            let _ = error.print(rt);
            Status::BadWords
        }
    }
}

/// The words of the command line, the first of which is the program's name.
fn arguments(rt: &HostRuntime) -> io::Result<Vec<String>> {
    let mut all = Vec::new(rt.alloc());
    for argument in env::args(rt)? {
        all.push(argument)?;
    }
    Ok(all)
}

/// The words as slices.
fn slices(alloc: Global, arguments: &[String]) -> Result<Vec<&str>, AllocError>
    ensures { IfOk result (λ all. map (λ word. word.now) all.items ≡ map (λ word. string_bytes word) arguments.now) }
{
    let mut all = Vec::with_capacity(alloc, arguments.len())?;
    for argument in arguments {
        all.push(argument.as_str())?;
    }
    Ok(all)
}

/// Reads the command line, and runs its command.
fn run_words<R: Threads + Wait + Sync, O: Write, E: Write>(
    rt: &HostRuntime,
    threads: &R,
    streams: &mut Streams<O, E>,
) -> Status
    requires { writing_failed streams.old.out ≡ false }
{
    let arguments = match arguments(rt) {
        Ok(arguments) => arguments,
        Err(error) if error.kind() == io::ErrorKind::OutOfMemory => {
            streams.tell_no_memory();
            return Status::OutOfMemory;
        }
        Err(_) => {
            streams.err.put(b"autolock: the words are not UTF-8\n");
            return Status::BadWords;
        }
    };
    let Ok(slices) = slices(rt.alloc(), &arguments) else {
        streams.tell_no_memory();
        return Status::OutOfMemory;
    };
    match words(rt.alloc(), &slices) {
        Ok(line) => run_line(rt, threads, line, streams),
        Err(error) => tell_words(rt, &error, streams),
    }
}

/// Runs the command of the command line over the streams of the process. Returns the exit status.
fn work<R: Threads + Wait + Sync>(rt: &HostRuntime, threads: &R) -> u8 {
    let mut streams = Streams {
        out: Sink::new(rt.stdout()),
        err: Sink::new(rt.stderr()),
    };
    run_words(rt, threads, &mut streams).code()
}

fn main(rt: HostRuntime) -> ExitCode {
    if !rt.stderr().is_terminal() {
        return ExitCode::from(work(&rt, &rt));
    }
    let going_on = Work::new();
    let (code, _) = join(
        &rt,
        || -> u8 {
            let code = work(&rt, &rt);
            going_on.end();
            code
        },
        || going_on.watch(&rt, &mut rt.stderr()),
    );
    ExitCode::from(code)
}
