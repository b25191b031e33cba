//! Ropes.

ghost use Rattle.std.specs.Prelude.{◌≡◌, ◌++◌, ◌∷◌, [], ◌<◌, ◌≤◌, length, map, IfOk, OnOk, string_bytes};
ghost use Rattle.std.specs.Fmt.{decimal};
ghost use Rattle.rope.specs.Working.Ropes.{rope_text, AddsTo, groups_of, part_of, own_at, part_at};

use std::alloc::{AllocError, Global};
use std::marker::Model;

// An insertion of a part of a group, between bytes that are the rope's own.
#[derive(Clone, Copy)]
struct Insert {
    from: usize,
    at: usize,
    group: usize,
    number: usize,
}

/// A text, as bytes of its own, insertions of shared parts between them, and the groups of parts that it keeps. An
/// insertion takes 32 bytes, however long the part is; a short part is copied.
#[derive(Drop)]
pub struct Rope {
    own: Vec<u8>,
    groups: Vec<Vec<String>>,
    inserts: Vec<Insert>,
    // The place of the last insertion.
    last: usize,
    // Room for the digits of a number.
    digits: String,
}

// A part of at most this many bytes is copied.
const COPIED: usize = 256;

impl Model for Rope {
    ghost use Rattle.std.specs.Prelude.{◌≤◌, length, map, drop, string_bytes};
    ghost use Rattle.std.specs.List.{All};
    ghost use Rattle.rope.specs.Working.Ropes.{RopeOf, groups_of, piece, IsIn};

    ghost Value = { RopeOf };

    ghost view = { λ r. record {
      inserted = map (piece r.own.items (groups_of r.groups.items)) r.inserts.items;
      rest = drop r.last r.own.items;
      groups = groups_of r.groups.items;
    } };

    ghost invariant = { λ r.
        (r.last ≤ length r.own.items) × All (IsIn (length r.own.items) (length r.groups.items)) r.inserts.items };
}

impl Rope {
    /// An empty text, with no parts.
    pub fn new(alloc: Global) -> Rope
        ensures { result ≡ record { inserted = []; rest = []; groups = [] } }
    {
        Rope {
            own: Vec::new(alloc),
            groups: Vec::new(alloc),
            inserts: Vec::new(alloc),
            last: 0,
            digits: String::new(alloc),
        }
    }

    /// A rope that is `text`.
    pub fn of(alloc: Global, text: String) -> Rope
        ensures { result ≡ record { inserted = []; rest = string_bytes text; groups = [] } }
    {
        Rope::of_bytes(alloc, text.into_bytes())
    }

    /// A rope that is `bytes`, which need not be UTF-8.
    pub fn of_bytes(alloc: Global, bytes: Vec<u8>) -> Rope
        ensures { result ≡ record { inserted = []; rest = bytes.items; groups = [] } }
    {
        Rope {
            own: bytes,
            groups: Vec::new(alloc),
            inserts: Vec::new(alloc),
            last: 0,
            digits: String::new(alloc),
        }
    }

    /// Appends `text`. The only error is a failed allocation.
    pub fn push_str(&mut self, text: &str) -> Result<(), AllocError>
        ensures { OnOk result (AddsTo text.now self.old self.new) }
    {
        self.own.extend_from_slice(text.as_bytes())
    }

    /// Appends `number` in decimal. The only error is a failed allocation.
    pub fn push_number(&mut self, number: usize) -> Result<(), AllocError>
        ensures { OnOk result (AddsTo (decimal number) self.old self.new) }
    {
        self.digits.clear();
        write!(self.digits, "{number}")?;
        self.own.extend_from_slice(self.digits.as_bytes())
    }

    /// Keeps a group of parts and returns its index among the groups. The only error is a failed allocation.
    pub fn keep(&mut self, parts: Vec<String>) -> Result<usize, AllocError>
        ensures number { IfOk result (λ number. number ≡ length self.old.groups) }
        ensures groups { OnOk result (self.new.groups ≡ self.old.groups ++ map string_bytes parts.items ∷ []) }
        ensures text { rope_text self.new ≡ rope_text self.old }
    {
        let number = self.groups.len();
        self.groups.push(parts)?;
        Ok(number)
    }

    /// Appends the part `number` of `group`, or nothing if one of the numbers is out of range. The only error is a
    /// failed allocation.
    pub fn push_part(&mut self, group: usize, number: usize) -> Result<(), AllocError>
        ensures { OnOk result (AddsTo (part_of self.old.groups group number) self.old self.new) }
    {
        let part = part_in(&self.groups, group, number);
        if part.len() <= COPIED {
            return self.own.extend_from_slice(part.as_bytes());
        }
        let insert = Insert {
            from: self.last,
            at: self.own.len(),
            group,
            number,
        };
        self.inserts.push(insert)?;
        self.last = insert.at;
        Ok(())
    }

    /// The number of insertions.
    pub fn inserts(&self) -> usize
        ensures { result ≡ length self.now.inserted }
    {
        self.inserts.len()
    }

    /// The rope's own bytes before the insertion `insert`, from the insertion before it on.
    pub fn own_before(&self, insert: usize) -> &[u8]
        requires { insert < length self.now.inserted }
        ensures { result.now ≡ own_at self.now.inserted insert }
    {
        let insert = self.inserts[insert];
        &self.own[insert.from..insert.at]
    }

    /// The part of the insertion `insert`.
    pub fn part_at(&self, insert: usize) -> &[u8]
        requires { insert < length self.now.inserted }
        ensures { result.now ≡ part_at self.now.inserted insert }
    {
        let insert = self.inserts[insert];
        part_in(&self.groups, insert.group, insert.number).as_bytes()
    }

    /// The rope's own bytes after the last insertion.
    pub fn rest(&self) -> &[u8]
        ensures { result.now ≡ self.now.rest }
    {
        &self.own[self.last..]
    }
}

// The part of the group, or the empty text if there is none.
fn part_in(groups: &[Vec<String>], group: usize, number: usize) -> &str
    ensures { result.now ≡ part_of (groups_of groups.now) group number }
{
    let Some(parts) = groups.get(group) else {
        return "";
    };
    match parts.get(number) {
        Some(part) => part.as_str(),
        None => "",
    }
}
