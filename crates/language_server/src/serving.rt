//! A server over a reader and a writer.

ghost use Rattle.lsp_protocol.specs.Connections.{connection};
ghost use Rattle.language_server.specs.Serving.{ServesEditor};

use crate::language::Autolock;
use lsp_protocol::{End, Incoming, Outgoing, Server};
use std::alloc::Global;
use std::io::{BufRead, Write};

/// Serves an editor: reads and answers its messages until the end. Each answer is written and flushed before the next
/// message is read. A message for which memory is refused is answered with that error, and changes nothing.
pub fn serve<R: BufRead, W: Write>(
    alloc: Global,
    incoming: &mut Incoming<R>,
    outgoing: &mut Outgoing<W>,
) -> End
    ensures { ServesEditor (connection R.remaining W.contents incoming.old outgoing.old)
        (connection R.remaining W.contents incoming.new outgoing.new) result }
{
    let mut server = Server::new(alloc, Autolock);
    lsp_protocol::serve(alloc, incoming, outgoing, &mut server)
}
