//! The names of a text.

ghost use Rattle.std.specs.Prelude.{◌≡◌, IsTrue, IfOk};
ghost use Rattle.std.specs.List.{list_all};
ghost use Rattle.std.specs.Rc.{rc_str_bytes};
ghost use Rattle.source.specs.Texts.{is_name_byte};

use indexmap::IndexSet;
use source::keyed::KeyedState;
use std::alloc::{AllocError, Global};
use std::rc::RcStr;
use std::str::from_utf8_unchecked;

/// A string interner: each name of a text once, so that equal names share their bytes.
#[derive(Drop)]
pub struct Interner {
    texts: IndexSet<RcStr, KeyedState>,
}

impl Interner {
    /// An interner of the names of `text`, without any yet.
    pub fn new(alloc: Global, text: &[u8]) -> Interner {
        Interner {
            texts: IndexSet::with_hasher(alloc, KeyedState::of(text)),
        }
    }

    /// The name of these bytes, which shares them with equal names before it.
    #[tactic(auto, using(crate::proofs::NameBytes::name_utf8, crate::proofs::NameBytes::same_bytes))]
    pub fn share(&mut self, alloc: Global, name: &[u8]) -> Result<RcStr, AllocError>
        requires { IsTrue (list_all is_name_byte name.now) }
        ensures { IfOk result (λ text. rc_str_bytes text ≡ name.now) }
    {
        // SAFETY: letters, digits and `_` are ASCII.
        let name = unsafe { from_utf8_unchecked(name) };
        if let Some(text) = self.texts.get(name) {
            return text.clone();
        }
        let text = RcStr::from_str(alloc, name)?;
        self.texts.insert(text.clone()?)?;
        Ok(text)
    }
}
