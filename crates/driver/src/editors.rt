//! The engine of `lsp`.

ghost use Rattle.std.specs.Prelude.{◌≡◌};
ghost use Rattle.lsp_protocol.specs.Connections.{connection};
ghost use Rattle.driver.specs.Editors.{IsServed, message_for, status_for};
ghost use Rattle.driver.specs.Streams.{Tells};

use crate::status::Status;
use crate::streams::Streams;
use language_server::serve;
use lsp_protocol::{End, Incoming, Outgoing};
use std::alloc::Global;
use std::io::{BufRead, Write};

/// The status with which `lsp` ends where the serving of an editor ended with `end`.
fn status_of(end: End) -> Status
    ensures { result ≡ status_for end }
{
    match end {
        End::Exit(true) => Status::Done,
        End::Exit(false) | End::Input => Status::Refused,
        End::Unread | End::Unwritten => Status::Failed,
        End::OutOfMemory => Status::OutOfMemory,
    }
}

/// Reports on `err` how the serving of an editor ended, where `end` is a failure.
fn tell_end<O: Write, E: Write>(end: End, streams: &mut Streams<O, E>)
    ensures out { streams.new.out ≡ streams.old.out }
    ensures told { Tells E.contents streams.old.err streams.new.err (message_for end) }
{
    match end {
        End::Exit(_) | End::Input => (),
        End::Unread => streams.tell_cannot_read("standard input"),
        End::Unwritten => streams.tell_cannot_write(),
        End::OutOfMemory => streams.tell_no_memory(),
    }
}

/// Serves an editor by the language server protocol: reads its messages from `incoming`, and writes the answers to each
/// message to `outgoing` before it reads the next one. Only `err` of `streams` is used. Returns how that ended:
///
/// - `Done`: the editor asked to exit, after it had asked to shut down.
/// - `Refused`: the editor asked to exit without having asked to shut down, or the rest of the input does not begin with
///   a frame, for example because the input ended.
/// - `Failed`: reading or writing failed, which is reported on `err`.
/// - `OutOfMemory`: a growth was refused, also for the answer that says so, which is reported on `err`.
pub fn lsp<R: BufRead, W: Write, O: Write, E: Write>(
    alloc: Global,
    incoming: &mut Incoming<R>,
    outgoing: &mut Outgoing<W>,
    streams: &mut Streams<O, E>,
) -> Status
    ensures { IsServed (connection R.remaining W.contents incoming.old outgoing.old)
        (connection R.remaining W.contents incoming.new outgoing.new) E.contents
        streams.old streams.new result }
{
    let end = serve(alloc, incoming, outgoing);
    tell_end(end, streams);
    status_of(end)
}
