//! Faults of names and types with their reasons, and the first ones of several.

ghost use Rattle.std.specs.Prelude.{◌≡◌};
ghost use Rattle.resolution.specs.declared.why.Why.TheVariants.{Plain};
ghost use Rattle.resolution.specs.Working.Findings.{nothing_found, with_found, found_in, first, place_in, goes_ahead, told, found_if};

use crate::why::Why;
use arrayvec::ArrayVec;
use source::fault::Code;
use std::marker::Model;

/// A fault of names and types: what is wrong, where, and why.
#[derive(Clone, Copy, Debug, PartialEq, Eq)]
pub struct Finding {
    /// What is wrong.
    pub code: Code,
    /// The byte of the text at which the fault is, from 0.
    pub start: usize,
    /// Why it is wrong.
    pub why: Why,
}

/// The most faults of a program that are kept.
pub const MOST: usize = 20;

/// The first faults so far, at most [`MOST`], ordered by place and code with each pair once, and whether more were
/// found.
#[derive(Drop)]
pub struct Firsts {
    // (one more than are kept, for an insertion)
    kept: ArrayVec<Finding, 21>,
    more: bool,
}

impl Model for Firsts {
    ghost use Rattle.std.specs.Prelude.{length, ◌≤◌};
    ghost use Rattle.resolution.specs.Working.Findings as model;

    ghost Value = { model.Firsts };

    ghost view = { λ s. record { kept = s.kept.items; more = s.more } };

    ghost invariant = { λ s. length s.kept.items ≤ model.MOST };
}

impl Finding {
    /// A fault with its reason.
    pub fn new(code: Code, start: usize, why: Why) -> Finding
        ensures { result ≡ told code start why }
    {
        Finding { code, start, why }
    }

    /// A fault whose code says all that is known.
    pub fn plain(code: Code, start: usize) -> Finding
        ensures { result ≡ told code start Plain }
    {
        Finding::new(code, start, Why::Plain)
    }

    /// Whether this fault is reported before `other`: it starts earlier, or at the same byte with a lower code.
    pub fn precedes(self, other: Finding) -> bool
        ensures { result ≡ goes_ahead self other }
    {
        self.start < other.start
            || self.start == other.start && self.code.number() < other.code.number()
    }
}

impl Default for Firsts {
    /// No faults.
    fn default() -> Firsts
        ensures { result ≡ nothing_found }
    {
        Firsts::new()
    }
}

impl Firsts {
    ghost use Rattle.std.specs.Prelude.{is_some, not};

    /// No faults.
    pub fn new() -> Firsts
        ensures { result ≡ nothing_found }
    {
        Firsts {
            kept: ArrayVec::new(),
            more: false,
        }
    }

    /// The faults, ordered by place and code.
    pub fn kept(&self) -> &[Finding]
        ensures { result.now ≡ self.now.kept }
    {
        self.kept.as_slice()
    }

    /// Whether more faults were found than are kept.
    pub fn has_more(&self) -> bool
        ensures { result ≡ self.now.more }
    {
        self.more
    }

    /// The first fault, before which no other one comes.
    pub fn first(&self) -> Option<Finding>
        ensures { result ≡ first self.now }
    {
        self.kept.as_slice().first().copied()
    }

    /// Whether no fault was found.
    pub fn is_empty(&self) -> bool
        ensures { is_some (first self.now) ≡ not result }
    {
        self.kept.is_empty()
    }

    /// The index at which a fault is inserted, or `None` if one with its code and place is kept.
    fn place(&self, found: Finding) -> Option<usize>
        ensures { result ≡ place_in 0 found self.now.kept }
    {
        for (at, kept) in self.kept.as_slice().iter().enumerate() {
            if found.precedes(*kept) {
                return Some(at);
            }
            if !kept.precedes(found) {
                return None;
            }
        }
        Some(self.kept.len())
    }
}

impl Default for Finding {
    /// The content of the unused room.
    fn default() -> Finding {
        Finding::plain(Code::UnknownName, 0)
    }
}

/// Notes a fault with its reason.
///
/// A fault with the code and place of a kept one is not kept, nor is one that comes after [`MOST`] others.
pub fn report_found(found: Finding, firsts: &mut Firsts)
    ensures { firsts.new ≡ with_found firsts.old found }
{
    if let Some(at) = firsts.place(found) {
        firsts.kept.insert(at, found);
        if firsts.kept.len() > MOST {
            firsts.kept.truncate(MOST);
            firsts.more = true;
        }
    }
}

/// Notes a fault with its reason if `is_fault`; otherwise `firsts` does not change.
pub fn report_found_if(is_fault: bool, found: Finding, firsts: &mut Firsts)
    ensures { firsts.new ≡ found_in firsts.old (found_if is_fault found) }
{
    if is_fault {
        report_found(found, firsts);
    }
}

/// Notes a fault whose code says all that is known.
pub fn report(code: Code, start: usize, firsts: &mut Firsts)
    ensures { firsts.new ≡ with_found firsts.old (told code start Plain) }
{
    report_found(Finding::plain(code, start), firsts);
}

/// Notes such a fault if `is_fault`; otherwise `firsts` does not change.
pub fn report_if(is_fault: bool, code: Code, start: usize, firsts: &mut Firsts)
    ensures { firsts.new ≡ found_in firsts.old (found_if is_fault (told code start Plain)) }
{
    report_found_if(is_fault, Finding::plain(code, start), firsts);
}
