//! An engine's answer, and its hand-over to the caller.

ghost use Rattle.std.specs.Prelude.{◌≡◌, ◌≢◌, ◌++◌, false, IfOk, OnOk, length};
ghost use Rattle.driver.specs.{exit_status, writer_of, writing_failed};
ghost use Rattle.autolock_c.specs.Given.{laid_over};
ghost use Rattle.autolock_c.specs.Working.Answering.{IsHandedOut};

use driver::{Status, Streams};
use source::memory::NoMemory;

/// An engine's answer.
#[derive(Drop)]
pub struct Answer {
    /// How the engine ended.
    status: Status,
    /// The text that it wrote, followed by its message.
    text: Vec<u8>,
}

impl Answer {
    /// The answer of an engine that ended with `status` and left this in its outputs.
    ///
    /// # Errors
    ///
    /// A growth was refused: to the engine, to an output, which fails for no other reason, or here.
    pub fn of(status: Status, streams: Streams<Vec<u8>, Vec<u8>>) -> Result<Answer, NoMemory>
        ensures ended { IfOk result (λ answer. answer.status ≡ status) }
        ensures written { OnOk result (status ≢ Status.Failed) }
        ensures memory { OnOk result (status ≢ Status.OutOfMemory) }
        ensures told { OnOk result (writing_failed streams.err ≡ false) }
        ensures text { IfOk result (λ answer.
            answer.text.items ≡ (writer_of streams.out).items ++ (writer_of streams.err).items) }
    {
        let Streams { out, err } = streams;
        if matches!(status, Status::Failed | Status::OutOfMemory) || err.has_failed() {
            return Err(NoMemory);
        }
        let mut text = out.into_writer();
        text.extend_from_slice(err.into_writer().as_slice())?;
        Ok(Answer { status, text })
    }

    /// Copies as much of the text to `out` as fits, and sets `needed` to the length of all of it, in bytes. Returns the
    /// exit status.
    fn give(&self, out: &mut [u8], needed: &mut usize) -> u8
        ensures code { result ≡ exit_status self.now.status }
        ensures whole { needed.new ≡ length self.now.text.items }
        ensures given { out.new ≡ laid_over self.now.text.items out.old }
    {
        let most = self.text.len().min(out.len());
        out[..most].copy_from_slice(&self.text[..most]);
        *needed = self.text.len();
        self.status.code()
    }
}

/// Hands out an answer as the method does; without an answer writes nothing, and returns the exit status that says why.
pub fn give(answer: &Result<Answer, Status>, out: &mut [u8], needed: &mut usize) -> u8
    ensures { IsHandedOut answer.now out.old out.new needed.new result }
{
    match answer {
        Ok(answer) => answer.give(out, needed),
        Err(status) => {
            *needed = 0;
            status.code()
        }
    }
}
