//! The first declarations of names, at the top level and within each declaration. The one error is a refused growth.

ghost use Rattle.std.specs.Prelude.{◌≡◌, ◌+◌, ◌<◌, ℕ, List, None, IfOk, OnOk, length};
ghost use Rattle.source.specs.declared.token.Token.{Token};
ghost use Rattle.lsp_texts.specs.Working.Places.{IsPlaceOf};
ghost use Rattle.lsp_texts.specs.Working.Tables.{top_in, inner_in, IsWithTop, IsWithInner, AreTablesIn, AreTablesOf};

use crate::names::text_at;
use crate::scopes::Place;
use source::memory::NoMemory;
use source::token::Token;
use std::alloc::Global;
use std::collections::BTreeMap;

/// The declared names, each with the first token that declares it.
#[derive(Drop)]
pub(crate) struct Tables<'a> {
    /// The names of the top level.
    pub(crate) top: BTreeMap<&'a str, usize>,
    /// The other names, each with the name of the top level whose declaration encloses it.
    pub(crate) inner: BTreeMap<(usize, &'a str), usize>,
}

impl<'a> Tables<'a> {
    fn new(alloc: Global) -> Tables<'a>
        ensures { (tokens : List Token) → AreTablesIn tokens 0 result }
    {
        Tables {
            top: BTreeMap::new(alloc),
            inner: BTreeMap::new(alloc),
        }
    }

    /// The token that declares the name `text` at the top level.
    pub(crate) fn top(&self, text: &'a str) -> Option<usize>
        ensures { result ≡ top_in self.now text.now }
    {
        self.top.get(text).copied()
    }

    /// The token that declares the name `text` in the declaration of `owner`, a name of the top level.
    pub(crate) fn inner(&self, owner: usize, text: &'a str) -> Option<usize>
        ensures { result ≡ inner_in self.now owner text.now }
    {
        self.inner.get(&(owner, text)).copied()
    }

    fn add_top(&mut self, text: &'a str, at: usize) -> Result<(), NoMemory>
        ensures { OnOk result (IsWithTop text.now at self.old self.new) }
    {
        if self.top(text).is_none() {
            self.top.insert(text, at)?;
        }
        Ok(())
    }

    fn add_inner(&mut self, owner: usize, text: &'a str, at: usize) -> Result<(), NoMemory>
        ensures { OnOk result (IsWithInner owner text.now at self.old self.new) }
    {
        if self.inner(owner, text).is_none() {
            self.inner.insert((owner, text), at)?;
        }
        Ok(())
    }

    fn add(&mut self, tokens: &'a [Token], place: Place, at: usize) -> Result<(), NoMemory>
        requires place { IsPlaceOf tokens.now at place }
        requires before { AreTablesIn tokens.now at self.old }
        ensures { OnOk result (AreTablesIn tokens.now (at + 1) self.new) }
    {
        let Some(text) = text_at(tokens, at) else {
            return Ok(());
        };
        if place.is_top(tokens, at) {
            return self.add_top(text, at);
        }
        match place.owner {
            Some(owner) if place.is_inner(tokens, at) => self.add_inner(owner, text, at),
            _ => Ok(()),
        }
    }

    /// The tables of a text.
    pub(crate) fn of(alloc: Global, tokens: &'a [Token]) -> Result<Tables<'a>, NoMemory>
        ensures { IfOk result (AreTablesOf tokens.now) }
    {
        let mut tables = Tables::new(alloc);
        let mut place = Place::first();
        for at in 0..tokens.len() {
            tables.add(tokens, place, at)?;
            place = place.behind(tokens, at);
        }
        Ok(tables)
    }
}
