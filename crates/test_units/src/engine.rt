//! Readers and writers that fail, and bytes that are not a text. Files of cases test all other answers.

use driver::{Sink, SourceText, Streams, serial};
use std::io::ErrorKind;
use std::test::Fail;
use test_support::{HISTORY, LOST_UPDATE, judge_answer, judge_read, judge_written, room, writer};

const UNREAD: &str = "3 err\nautolock: cannot read F\n";

#[test]
fn a_failing_reader(rt: HostRuntime) -> Result<(), Fail> {
    let alloc = rt.alloc();
    let whole = format!(in alloc; "0 out\n{HISTORY}")?;
    let text = LOST_UPDATE.as_bytes();
    for calls in 0..30 {
        // The text has 106 bytes, so that 16 calls give it, and one more its end.
        let want = if calls < 17 { UNREAD } else { whole.as_str() };
        judge_read(alloc, text, calls, ErrorKind::BrokenPipe, want)?;
    }
    // The same for any amount of input.
    let long = vec![in alloc; b' '; 1_100_000]?;
    judge_read(alloc, &long, 140_000, ErrorKind::BrokenPipe, UNREAD)?;
    // At most one byte past the source limit is read, for which these calls are enough.
    let too_long = "1 err\nF:1:1: E15 limit exceeded\n";
    judge_read(alloc, &long, 150_000, ErrorKind::BrokenPipe, too_long)
}

#[test]
fn a_failing_writer(rt: HostRuntime) -> Result<(), Fail> {
    let alloc = rt.alloc();
    for calls in 0..30 {
        // The text has 64 bytes, so that 10 calls take it, and one more flushes it. Nothing is written or flushed after
        // the call that failed.
        let want = match calls {
            0..10 => "1 false true, 3 err\nautolock: cannot write\n",
            10 => "1 true true, 3 err\nautolock: cannot write\n",
            _ => "0 true true, 0 out\n",
        };
        judge_written(alloc, calls, want)?;
    }
    Ok(())
}

#[test]
fn a_failing_standard_error(rt: HostRuntime) -> Result<(), Fail> {
    let alloc = rt.alloc();
    for calls in 0..8 {
        let mut source = SourceText::new("F", b"lock G".as_slice());
        let mut streams = Streams {
            out: Sink::new(room(alloc, &[])?),
            err: Sink::new(writer(alloc, calls)?),
        };
        let status = serial(alloc, 0, &mut source, &mut streams);
        let out = streams.out.into_writer();
        judge_answer(alloc, status, out.as_slice(), &[], "1 out\n")?;
    }
    Ok(())
}

#[test]
fn a_standard_error_that_failed_before(rt: HostRuntime) -> Result<(), Fail> {
    let alloc = rt.alloc();
    let mut source = SourceText::new("F", LOST_UPDATE.as_bytes());
    let mut streams = Streams {
        out: Sink::new(room(alloc, &[])?),
        err: Sink::new(writer(alloc, 0)?),
    };
    streams.err.put(b"a message".as_slice());
    assert!(rt; streams.err.has_failed());
    let status = serial(alloc, 0, &mut source, &mut streams);
    let out = streams.out.into_writer();
    let want = format!(in alloc; "0 out\n{HISTORY}")?;
    judge_answer(alloc, status, out.as_slice(), &[], want.as_str())
}

#[test]
fn a_reader_without_memory(rt: HostRuntime) -> Result<(), Fail> {
    let alloc = rt.alloc();
    let text = LOST_UPDATE.as_bytes();
    let want = "4 err\nautolock: no memory\n";
    judge_read(alloc, text, 3, ErrorKind::OutOfMemory, want)
}

/// Any byte may be in a comment, and none of these outside of one.
#[test]
fn reads_bytes(rt: HostRuntime) -> Result<(), Fail> {
    let alloc = rt.alloc();
    let whole = "0 out\nhistory 1\ncells\nend\n";
    let kind = ErrorKind::BrokenPipe;
    judge_read(alloc, b"lock G; // \x00\x80\xff", 9, kind, whole)?;
    let bad = "1 err\nF:2:1: E01 bad character\n";
    judge_read(alloc, b"lock G;\n\x80", 9, kind, bad)
}
