//! The loop of a server.

ghost use Rattle.std.specs.Prelude.{◌≡◌, ◌||◌, ℕ, List, IfOk};
ghost use Rattle.lsp_protocol.specs.declared.serving.Next.{Next};
ghost use Rattle.lsp_protocol.specs.Connections.{connection, reader_of, writer_of, reading_failed, writing_failed};
ghost use Rattle.lsp_protocol.specs.Loop.{Serves};
ghost use Rattle.lsp_protocol.specs.Working.Steps.{IsStep, stops_unread, stops_unwritten};

use crate::frame_reading::read_frame;
use crate::incoming::{Incoming, ReadError};
use crate::outgoing::Outgoing;
use source::memory::NoMemory;
use std::alloc::Global;
use std::io::{BufRead, Write};

/// What follows an answer.
#[derive(Clone, Copy, Debug, PartialEq, Eq)]
pub enum Next {
    /// The next message.
    Message,
    /// The end, as the client asks: after a shutdown, or without one.
    Exit(bool),
}

/// The answer to a message.
#[derive(Drop)]
pub struct ServiceAnswer {
    /// The frames to write.
    pub frames: Vec<u8>,
    /// What follows.
    pub next: Next,
}

/// A service that answers messages.
pub trait Service {
    /// A service answers the body of a message by these bytes and what follows, and is another service after it.
    ghost answers: { Self → List ℕ → List ℕ → Next → Self → Type 0 };

    /// The answer to a message.
    ///
    /// # Errors
    ///
    /// Out of memory.
    fn answer(&mut self, alloc: Global, body: &[u8]) -> Result<ServiceAnswer, NoMemory>
        ensures { IfOk result (λ answer. answers self.old body.now answer.frames.items answer.next self.new) };
}

/// Why the loop ended.
#[derive(Clone, Copy, Debug, PartialEq, Eq)]
pub enum End {
    /// The client asked for it: after a shutdown, or without one.
    Exit(bool),
    /// The rest of the input does not begin with a frame.
    Input,
    /// The reader failed.
    Unread,
    /// The writer failed.
    Unwritten,
    /// An allocation failed.
    OutOfMemory,
}

/// Reads and answers one message; `None` if more may come.
fn serve_one<R: BufRead, W: Write, S: Service>(
    alloc: Global,
    incoming: &mut Incoming<R>,
    outgoing: &mut Outgoing<W>,
    service: &mut S,
) -> Option<End>
    ensures step { IsStep S.answers (R.remaining (reader_of incoming.old)) (R.remaining (reader_of incoming.new))
        (W.contents (writer_of outgoing.old)) (W.contents (writer_of outgoing.new)) service.old service.new result }
    ensures unread { reading_failed incoming.new ≡ (stops_unread result || reading_failed incoming.old) }
    ensures unwritten { writing_failed outgoing.new ≡ (stops_unwritten result || writing_failed outgoing.old) }
{
    let body = match read_frame(alloc, incoming) {
        Ok(Some(body)) => body,
        Ok(None) => return Some(End::Input),
        Err(ReadError::Failed) => return Some(End::Unread),
        Err(ReadError::OutOfMemory) => return Some(End::OutOfMemory),
    };
    let Ok(answer) = service.answer(alloc, &body) else {
        return Some(End::OutOfMemory);
    };
    if outgoing.write_out(&answer.frames).is_err() {
        return Some(End::Unwritten);
    }
    match answer.next {
        Next::Message => None,
        Next::Exit(shut_down) => Some(End::Exit(shut_down)),
    }
}

/// Reads and answers messages until the end. Each answer is written and flushed before the next message is read, which
/// no clause says. A service that has had 2 ^ 64 - 1 messages ends as if memory had run out.
pub fn serve<R: BufRead, W: Write, S: Service>(
    alloc: Global,
    incoming: &mut Incoming<R>,
    outgoing: &mut Outgoing<W>,
    service: &mut S,
) -> End
    ensures { Serves S.answers (connection R.remaining W.contents incoming.old outgoing.old)
        (connection R.remaining W.contents incoming.new outgoing.new) service.old result }
{
    for _ in 0..u64::MAX {
        if let Some(end) = serve_one(alloc, incoming, outgoing, service) {
            return end;
        }
    }
    End::OutOfMemory
}
