//! The open documents.

ghost use Rattle.std.specs.Prelude.{◌≡◌, ℕ, List, Some, None, OnOk, OnErr, option_map};
ghost use Rattle.lsp_protocol.specs.Documents.{text_at, IsSetTo, AreSame};

use source::memory::NoMemory;
use std::alloc::Global;
use std::collections::BTreeMap;

/// The texts of the open documents, by their URIs.
#[derive(Drop)]
pub struct Documents {
    texts: BTreeMap<String, String>,
}

impl Documents {
    /// No documents.
    pub fn new(alloc: Global) -> Documents
        ensures { (uri : List ℕ) → text_at result uri ≡ None }
    {
        Documents {
            texts: BTreeMap::new(alloc),
        }
    }

    /// The text of the document with this URI, if it is open.
    pub fn text(&self, uri: &str) -> Option<&str>
        ensures { option_map (λ text. text.now) result ≡ text_at self.entry.now uri.now }
    {
        match self.texts.get(uri) {
            Some(text) => Some(text.as_str()),
            None => None,
        }
    }

    /// Sets the text of the document with this URI.
    ///
    /// # Errors
    ///
    /// Out of memory, which leaves all as it was.
    pub fn open(&mut self, alloc: Global, uri: &str, text: &str) -> Result<(), NoMemory>
        ensures ok { OnOk result (IsSetTo (text_at self.old) (text_at self.new) uri.now (Some text.now)) }
        ensures err { OnErr result (AreSame (text_at self.old) (text_at self.new)) }
    {
        let uri = String::from_str(alloc, uri)?;
        let text = String::from_str(alloc, text)?;
        self.texts.insert(uri, text)?;
        Ok(())
    }

    /// Closes the document with this URI.
    pub fn close(&mut self, uri: &str)
        ensures { IsSetTo (text_at self.old) (text_at self.new) uri.now None }
    {
        self.texts.remove(uri);
    }
}
