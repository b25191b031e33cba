//! A session.

ghost use Rattle.std.specs.Prelude.{◌≡◌, true, false, IfOk, OnErr, unwrap_or};
ghost use Rattle.serde_json.specs.Data.{null};
ghost use Rattle.serde_json.specs.View.{view};
ghost use Rattle.serde_json.specs.Written.{has_float};
ghost use Rattle.lsp_protocol.specs.Working.Values.{data_behind};
ghost use Rattle.lsp_protocol.specs.Deeds as deeds;
ghost use Rattle.lsp_protocol.specs.Servers.{session_of, MeaningOf};
ghost use Rattle.lsp_protocol.specs.Sessions.{IsNew, Performs, Stays, Answers};
ghost use Rattle.lsp_protocol.specs.Working.ServerViews.{view_of_deed, IsFit, RanShortFor, AnswersMessage};

use crate::calls::{ReadFault, id_of, read_message};
use crate::deeds::{Deed, Phase, deed_of};
use crate::documents::Documents;
use crate::language::{Language, Request};
use crate::replies::{Failure, diagnostics_notification, response};
use crate::serving::{Next, Service, ServiceAnswer};
use crate::writing::{one, refusal};
use serde_json::Value;
use source::memory::NoMemory;
use std::alloc::Global;

/// A session with a client, for a language.
#[derive(Drop)]
pub struct Server<L> {
    language: L,
    documents: Documents,
    phase: Phase,
    short: bool,
}

impl<L: Language> Server<L> {
    /// A session without a message so far.
    pub fn new(alloc: Global, language: L) -> Server<L>
        ensures { IsNew (session_of result) }
    {
        Server {
            language,
            documents: Documents::new(alloc),
            phase: Phase::New,
            short: false,
        }
    }

    /// Whether a message was answered by the error that memory ran out.
    pub fn was_short(&self) -> bool
        ensures { result ≡ (session_of self.now).short }
    {
        self.short
    }

    /// Begins the session.
    fn begin(&mut self, alloc: Global, id: &Value) -> Result<ServiceAnswer, NoMemory>
        requires { has_float (view id.now) ≡ false }
        ensures ok { IfOk result (λ answer. Performs (MeaningOf L.capabilities L.diagnoses L.is_method L.finds)
            (session_of self.old)
            (deeds.begin (view id.now)) answer.frames.items answer.next (session_of self.new)) }
        ensures err { OnErr result (Stays (session_of self.old) (session_of self.new)) }
    {
        let told = self.language.capabilities(alloc)?;
        let answer = one(alloc, &response(alloc, id, told)?)?;
        self.phase = Phase::Running;
        Ok(answer)
    }

    /// Shuts down, as the client asks.
    fn shut_down(&mut self, alloc: Global, id: &Value) -> Result<ServiceAnswer, NoMemory>
        requires { has_float (view id.now) ≡ false }
        ensures ok { IfOk result (λ answer. Performs (MeaningOf L.capabilities L.diagnoses L.is_method L.finds)
            (session_of self.old)
            (deeds.shut_down (view id.now)) answer.frames.items answer.next (session_of self.new)) }
        ensures err { OnErr result (Stays (session_of self.old) (session_of self.new)) }
    {
        let answer = one(alloc, &response(alloc, id, Value::Null)?)?;
        self.phase = Phase::ShutDown;
        Ok(answer)
    }

    /// Sets the text of a document.
    fn open(&mut self, alloc: Global, uri: &str, text: &str) -> Result<ServiceAnswer, NoMemory>
        ensures ok { IfOk result (λ answer. Performs (MeaningOf L.capabilities L.diagnoses L.is_method L.finds)
            (session_of self.old)
            (deeds.set_text uri.now text.now) answer.frames.items answer.next (session_of self.new)) }
        ensures err { OnErr result (Stays (session_of self.old) (session_of self.new)) }
    {
        let told = self.language.diagnostics(alloc, uri, text)?;
        let answer = one(alloc, &diagnostics_notification(alloc, uri, told)?)?;
        self.documents.open(alloc, uri, text)?;
        Ok(answer)
    }

    /// Closes a document, and removes its diagnostics.
    fn close(&mut self, alloc: Global, uri: &str) -> Result<ServiceAnswer, NoMemory>
        ensures ok { IfOk result (λ answer. Performs (MeaningOf L.capabilities L.diagnoses L.is_method L.finds)
            (session_of self.old)
            (deeds.close uri.now) answer.frames.items answer.next (session_of self.new)) }
        ensures err { OnErr result (Stays (session_of self.old) (session_of self.new)) }
    {
        let told = Value::Array(Vec::new(alloc));
        let answer = one(alloc, &diagnostics_notification(alloc, uri, told)?)?;
        self.documents.close(uri);
        Ok(answer)
    }

    /// Answers a request by what a method finds in a document.
    fn look_up(
        &self,
        alloc: Global,
        id: &Value,
        method: &str,
        uri: &str,
        params: &Value,
    ) -> Result<ServiceAnswer, NoMemory>
        requires plain { has_float (view id.now) ≡ false }
        requires known { L.is_method method.now ≡ true }
        ensures { IfOk result (λ answer. Performs (MeaningOf L.capabilities L.diagnoses L.is_method L.finds)
            (session_of self.now)
            (deeds.look_up (view id.now) method.now uri.now (view params.now)) answer.frames.items answer.next
            (session_of self.now)) }
    {
        let Some(text) = self.documents.text(uri) else {
            return refusal(alloc, Some(id), Failure::InvalidParameters);
        };
        let request = Request {
            method,
            uri,
            text,
            params,
        };
        match self.language.find(alloc, &request)? {
            Some(found) => one(alloc, &response(alloc, id, found)?),
            None => refusal(alloc, Some(id), Failure::InvalidParameters),
        }
    }

    /// Ends, as the client asks.
    fn exit(&self, alloc: Global) -> ServiceAnswer
        ensures { Performs (MeaningOf L.capabilities L.diagnoses L.is_method L.finds)
            (session_of self.now) deeds.leave
            result.frames.items result.next (session_of self.now) }
    {
        ServiceAnswer {
            frames: Vec::new(alloc),
            next: Next::Exit(matches!(self.phase, Phase::ShutDown)),
        }
    }

    /// Performs a deed.
    fn perform(&mut self, alloc: Global, deed: Deed<'_>) -> Result<ServiceAnswer, NoMemory>
        requires { IsFit L.is_method (view_of_deed deed) }
        ensures ok { IfOk result (λ answer. Performs (MeaningOf L.capabilities L.diagnoses L.is_method L.finds)
            (session_of self.old)
            (view_of_deed deed.entry) answer.frames.items answer.next (session_of self.new)) }
        ensures err { OnErr result (Stays (session_of self.old) (session_of self.new)) }
    {
        match deed {
            Deed::Refuse(id, why) => refusal(alloc, id, why),
            Deed::Begin(id) => self.begin(alloc, id),
            Deed::ShutDown(id) => self.shut_down(alloc, id),
            Deed::Exit => Ok(self.exit(alloc)),
            Deed::Open(uri, text) => self.open(alloc, uri, text),
            Deed::Close(uri) => self.close(alloc, uri),
            Deed::Find(id, method, uri, params) => self.look_up(alloc, id, method, uri, params),
            Deed::Ignore => Ok(ServiceAnswer {
                frames: Vec::new(alloc),
                next: Next::Message,
            }),
        }
    }

    /// Reports that memory ran out.
    fn run_short(&mut self, alloc: Global, id: Option<&Value>) -> Result<ServiceAnswer, NoMemory>
        requires { has_float (unwrap_or (data_behind id) null) ≡ false }
        ensures { IfOk result (λ answer. RanShortFor (data_behind id.entry)
            (session_of self.old) answer.frames.items answer.next (session_of self.new)) }
    {
        self.short = true;
        refusal(alloc, id, Failure::OutOfMemory)
    }

    /// Answers a message.
    fn answer_message(&mut self, alloc: Global, message: &Value) -> Result<ServiceAnswer, NoMemory>
        ensures { IfOk result (λ answer. AnswersMessage (MeaningOf L.capabilities L.diagnoses L.is_method
            L.finds) (view message.now)
            (session_of self.old) answer.frames.items answer.next (session_of self.new)) }
    {
        let deed = deed_of(self.phase, &self.language, message);
        match self.perform(alloc, deed) {
            Ok(answer) => Ok(answer),
            Err(NoMemory) => self.run_short(alloc, id_of(message)),
        }
    }
}

impl<L: Language> Service for Server<L> {
    ghost answers = { λ old body bytes then new.
        Answers (MeaningOf L.capabilities L.diagnoses L.is_method L.finds) (session_of old) body bytes then
        (session_of new) };

    fn answer(&mut self, alloc: Global, body: &[u8]) -> Result<ServiceAnswer, NoMemory> {
        match read_message(alloc, body) {
            Ok(message) => self.answer_message(alloc, &message),
            Err(ReadFault::NoJson) => refusal(alloc, None, Failure::NoJson),
            Err(ReadFault::OutOfMemory) => self.run_short(alloc, None),
        }
    }
}
