//! A set of states, each once.

ghost use Rattle.std.specs.Prelude.{◌≡◌, ◌<◌, ◌+◌, ◌^◌, ◌↔◌, [], ◌∷◌, ◌++◌, length, map, slice_set, IsTrue, OnOk, OnErr, MatchOption};
ghost use Rattle.outcomes.specs.Working.Changes.{applied, AreChanges};
ghost use Rattle.outcomes.specs.Working.States.{reached_of, left_with, orders_to, IsOne, IsAlike, NoneIsAlike, with_more, at};
ghost use Rattle.outcomes.specs.Working.Tables.{IsPlace, IsKey};

use crate::hash::hash;
use crate::state::{Change, State};
use core_lang::value::{Outcome, Value};
use source::keyed::KeyedState;
use source::memory::NoMemory;
use std::alloc::Global;
use std::collections::HashMap;
use std::hash::{BuildHasher, FoldHasher, Hasher};
use std::marker::Model;

/// A state, with the last one before it that has the same hash.
#[derive(Drop)]
pub(crate) struct Entry {
    pub(crate) state: State,
    pub(crate) before: Option<usize>,
}

/// The place of a state in a set.
#[derive(Clone, Copy)]
pub(crate) enum Place {
    /// The number of the state.
    Found(usize),
    /// The hash of the state, which is not in the set. The state can be added by it.
    Free(u64),
}

/// A numbered set of states, in which a state is found by its contents. Its value is the list of the states, the
/// values of the cells before any call, and the hasher of states.
#[derive(Drop)]
pub struct Layer<'a> {
    entries: Vec<Entry>,
    // By hash: the number of the last state that has it.
    places: HashMap<u64, usize>,
    total: u64,
    // The hasher before the first word of a state.
    start: FoldHasher,
    // The values of the cells before any call, from which changes are counted.
    opening: &'a [Value],
}

impl<'a> Model for Layer<'a> {
    ghost use Rattle.std.specs.Prelude.{map};
    ghost use Rattle.outcomes.specs.Working.States.{Layered, entry_state};
    ghost use Rattle.outcomes.specs.Working.Tables.{IsTable};

    ghost Value = { Layered };

    ghost view = { λ l. record {
      opening = l.opening.now;
      states = map (entry_state l.opening.now) l.entries.items;
      start = l.start;
    } };

    ghost invariant = { λ l. IsTable l.start l.opening.now l.entries.items l.places l.total };
}

impl<'a> Layer<'a> {
    /// An empty set, whose states are hashed with the keys of `hashing`, and whose changes are from `opening`.
    pub fn new(alloc: Global, hashing: KeyedState, opening: &'a [Value]) -> Layer<'a>
        ensures states { result.states ≡ [] }
        ensures opening { result.opening ≡ opening.now }
    {
        // The keyed hasher is slow, so it only gives the word that all states begin with.
        let mut start = FoldHasher::default();
        start.write_u64(hashing.build_hasher().finish());
        Layer {
            entries: Vec::new(alloc),
            places: HashMap::new(alloc),
            total: 0,
            start,
            opening,
        }
    }

    /// The values of the cells before any call.
    pub fn opening(&self) -> &'a [Value]
        ensures { result.now ≡ self.now.opening }
    {
        self.opening
    }

    /// The number of states.
    pub fn len(&self) -> usize
        ensures { result ≡ length self.now.states }
    {
        self.entries.len()
    }

    /// The state `number`.
    pub fn get(&self, number: usize) -> &State
        requires { number < length self.now.states }
        ensures one { IsOne self.now.states number (reached_of self.now.opening result.now) }
        ensures changes { AreChanges self.now.opening result.now.changes.items }
    {
        &self.entries[number].state
    }

    /// The number of orders that lead to the states together.
    pub fn orders(&self) -> u64
        ensures { result ≡ orders_to self.now.states }
    {
        self.total
    }

    // Whether the state `number` has these numbers of calls done, these changes and these outcomes.
    fn is_alike(
        &self,
        number: usize,
        done: &[usize],
        changes: &[Change],
        answers: &[Option<Outcome>],
    ) -> bool
        requires within { number < length self.now.states }
        requires changes { AreChanges self.now.opening changes.now }
        ensures { let left = left_with (applied changes.now self.now.opening) answers.now in
            IsTrue result ↔ IsAlike done.now left (at self.now.states number) }
    {
        let state = &self.entries[number].state;
        same_counts(&state.done, done)
            && same_changes(&state.changes, changes)
            && same_answers(&state.answers, answers)
    }

    /// The place of the state that has these numbers of calls done, these changes and these outcomes.
    pub(crate) fn place(
        &self,
        done: &[usize],
        changes: &[Change],
        answers: &[Option<Outcome>],
    ) -> Place
        requires { AreChanges self.now.opening changes.now }
        ensures { IsPlace self.now done.now (left_with (applied changes.now self.now.opening) answers.now) result }
    {
        let key = hash(self.start, done, changes, answers);
        let mut last = self.places.get(&key).copied();
        while let Some(number) = last {
            if self.is_alike(number, done, changes, answers) {
                return Place::Found(number);
            }
            last = self.entries[number].before;
        }
        Place::Free(key)
    }

    /// The number of the state that has these numbers of calls done, these changes and these outcomes, if it is in the
    /// set.
    pub fn find(
        &self,
        done: &[usize],
        changes: &[Change],
        answers: &[Option<Outcome>],
    ) -> Option<usize>
        requires { AreChanges self.now.opening changes.now }
        ensures { let left = left_with (applied changes.now self.now.opening) answers.now in
            MatchOption result (NoneIsAlike done.now left self.now.states)
            (λ number. (number < length self.now.states) × IsAlike done.now left (at self.now.states number)) }
    {
        match self.place(done, changes, answers) {
            Place::Found(number) => Some(number),
            Place::Free(_) => None,
        }
    }

    /// Adds `more` to the number of orders that lead to the state `number`.
    pub fn add_orders(&mut self, number: usize, more: u64)
        requires within { number < length self.old.states }
        requires fit { orders_to self.old.states + more < 2 ^ 64 }
        ensures states { self.new.states ≡ slice_set self.old.states number
            (with_more (at self.old.states number) more) }
        ensures opening { self.new.opening ≡ self.old.opening }
    {
        self.total += more;
        let state = &mut self.entries[number].state;
        state.orders += more;
    }

    /// Adds a state that is not in the set.
    ///
    /// # Errors
    ///
    /// Out of memory. The set is then unchanged.
    pub fn push(&mut self, state: State) -> Result<(), NoMemory>
        requires fit { orders_to self.old.states + state.orders < 2 ^ 64 }
        requires changes { AreChanges self.old.opening state.changes.items }
        ensures ok { OnOk result (self.new.states ≡ self.old.states ++ reached_of self.old.opening state ∷ []) }
        ensures opening { self.new.opening ≡ self.old.opening }
        ensures err { OnErr result (self.new ≡ self.old) }
    {
        let key = hash(self.start, &state.done, &state.changes, &state.answers);
        self.push_by(key, state)
    }

    /// Adds a state that is not in the set, whose hash is `key`.
    ///
    /// # Errors
    ///
    /// Out of memory. The set is then unchanged.
    pub(crate) fn push_by(&mut self, key: u64, state: State) -> Result<(), NoMemory>
        requires fit { orders_to self.old.states + state.orders < 2 ^ 64 }
        requires changes { AreChanges self.old.opening state.changes.items }
        requires key { IsKey self.old (reached_of self.old.opening state) key }
        ensures ok { OnOk result (self.new.states ≡ self.old.states ++ reached_of self.old.opening state ∷ []) }
        ensures opening { self.new.opening ≡ self.old.opening }
        ensures err { OnErr result (self.new ≡ self.old) }
    {
        let number = self.entries.len();
        let orders = state.orders;
        self.entries.push(Entry {
            state,
            before: None,
        })?;
        match self.places.insert(key, number) {
            Ok(before) => {
                self.entries[number].before = before;
                self.total += orders;
                Ok(())
            }
            Err(_) => {
                self.entries.truncate(number);
                Err(NoMemory)
            }
        }
    }
}

fn same_counts(a: &[usize], b: &[usize]) -> bool
    ensures { IsTrue result ↔ (a.now ≡ b.now) }
{
    a == b
}

fn same_changes(a: &[Change], b: &[Change]) -> bool
    ensures { IsTrue result ↔ (a.now ≡ b.now) }
{
    a == b
}

fn same_answers(a: &[Option<Outcome>], b: &[Option<Outcome>]) -> bool
    ensures { IsTrue result ↔ (a.now ≡ b.now) }
{
    a == b
}
