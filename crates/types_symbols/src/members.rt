//! Structs, with tables of their members by name and by number.

ghost use Rattle.std.specs.Prelude.{◌≡◌, ◌<◌, ◌+◌, ◌^◌, [], OnOk, IfOk, option_map, map, not, take};
ghost use Rattle.syntax.specs.Views.{ident, member_of, struct_of};
ghost use Rattle.source.specs.declared.fault.Code.TheVariants.{DeclaredTwice};
ghost use Rattle.resolution.specs.Scopes.{member_name, member_bears, place_of, the_member, number_in};
ghost use Rattle.resolution.specs.Numbers.{fields_from};
ghost use Rattle.resolution.specs.Expressions.{member_number};
ghost use Rattle.resolution.specs.Working.Findings.{found_in};
ghost use Rattle.resolution.specs.Working.FaultLists.{one_if, member_twice_faults};
ghost use Rattle.types_symbols.specs.Working.Found.{IsTableOf, AreAhead};
ghost use Rattle.types_symbols.specs.Working.Counted.{member_count, member_counted, member_counts_from, no_members, field_if};
ghost use Rattle.types_symbols.specs.Working.Views.{members_seen};

use crate::names::{Names, TableMaker};
use resolution::finding::{Firsts, report};
use source::fault::Code;
use source::limits::MEMBER_LIMIT;
use std::alloc::{AllocError, Global};
use std::marker::Model;
use syntax::tree::{Member, Name, Struct};

/// The number of members of each kind, those with a repeated name included.
#[derive(Clone, Copy)]
pub struct MemberCounts {
    /// The lock fields.
    pub locks: usize,
    /// The final references.
    pub finals: usize,
    /// The other fields.
    pub fields: usize,
}

/// A struct, with tables of its members.
#[derive(Drop)]
pub struct Structure<'t> {
    /// The struct as declared.
    item: &'t Struct,
    /// The place of the first member of each name.
    names: Names,
    /// For each member, by its place, the number of each kind before it.
    ahead: Vec<MemberCounts>,
    /// The total number of each kind.
    all: MemberCounts,
    /// The number of fields, without locks, final references and repeated names.
    width: usize,
}

// The model is the struct as declared, and an invariant says that the tables are those of its members.
impl<'t> Model for Structure<'t> {
    ghost use Rattle.std.specs.Prelude.{◌≡◌, []};
    ghost use Rattle.syntax.specs.declared.tree.Struct as the_struct;
    ghost use Rattle.resolution.specs.Scopes.{member_bears};
    ghost use Rattle.resolution.specs.Numbers.{fields_from};
    ghost use Rattle.types_symbols.specs.Working.Found.{IsTableOf, AreAhead};
    ghost use Rattle.types_symbols.specs.Working.Counted.{member_counts_from, no_members};
    ghost use Rattle.types_symbols.specs.Working.Views.{members_seen};

    ghost Value = { the_struct.Struct };

    ghost view = { λ s. s.item.now };

    ghost invariant = { λ s.
        IsTableOf member_bears (members_seen s.item.now) s.names
        × AreAhead (member_counts_from no_members) (members_seen s.item.now) s.ahead.items s.all
        × (s.width ≡ fields_from [] (members_seen s.item.now)) };
}

/// The name of a member.
pub(crate) fn name_of(m: &Member) -> &Name
    ensures { ident result.now ≡ member_name (member_of m.now) }
{
    match m {
        Member::Lock(name) => name,
        Member::Final(reference) => &reference.name,
        Member::Field(field) => &field.name,
    }
}

impl MemberCounts {
    /// Zero of each kind.
    fn new() -> MemberCounts
        ensures { result ≡ no_members }
    {
        MemberCounts {
            locks: 0,
            finals: 0,
            fields: 0,
        }
    }

    /// The number of members of the kind of `m`.
    fn of(self, m: &Member) -> usize
        ensures { result ≡ member_count self (member_of m.now) }
    {
        match m {
            Member::Lock(_) => self.locks,
            Member::Final(_) => self.finals,
            Member::Field(_) => self.fields,
        }
    }

    /// Counts `m`.
    fn count(&mut self, m: &Member)
        requires { member_count self.old (member_of m.now) < 2 ^ 63 }
        ensures { self.new ≡ member_counted self.old (member_of m.now) }
    {
        match m {
            Member::Lock(_) => self.locks = self.locks + 1,
            Member::Final(_) => self.finals = self.finals + 1,
            Member::Field(_) => self.fields = self.fields + 1,
        }
    }
}

/// The number of fields that a member adds: a member that repeats a name adds none.
fn fields_with(is_first: bool, m: &Member) -> usize
    ensures { result ≡ field_if is_first (member_of m.now) }
{
    match m {
        Member::Field(_) => { if is_first { 1 } else { 0 } }
        Member::Lock(_) | Member::Final(_) => 0,
    }
}

/// Notes a repeated name.
fn report_again(is_first: bool, start: usize, firsts: &mut Firsts)
    ensures { firsts.new ≡ found_in firsts.old (one_if (not is_first) DeclaredTwice start) }
{
    if !is_first {
        report(Code::DeclaredTwice, start, firsts);
    }
}

/// The members with their tables: their names, the number of each kind before each member, the totals, and the number
/// of fields without repeated names. Notes repeated names.
fn check_members(
    maker: TableMaker,
    members: &[Member],
    firsts: &mut Firsts,
) -> Result<(Names, Vec<MemberCounts>, MemberCounts, usize), AllocError>
    ensures names { IfOk result (λ t. IsTableOf member_bears (map member_of members.now) t.0) }
    ensures counts { IfOk result
        (λ t. AreAhead (member_counts_from no_members) (map member_of members.now) t.1.items t.2) }
    ensures width { IfOk result (λ t. t.3 ≡ fields_from [] (map member_of members.now)) }
    ensures faults { OnOk result
        (firsts.new ≡ found_in firsts.old (member_twice_faults [] (map member_of members.now))) }
{
    let alloc = maker.alloc;
    let mut names = Names::new(maker);
    let mut ahead = Vec::new(alloc);
    let mut counts = MemberCounts::new();
    let mut width = 0;
    for (place, m) in members.iter().enumerate() {
        let name = name_of(m);
        let is_first = names.find(name.text.as_str()).is_none();
        report_again(is_first, name.start as usize, firsts);
        width = width + fields_with(is_first, m);
        names.add(alloc, &name.text, place)?;
        ahead.push(counts)?;
        counts.count(m);
    }
    Ok((names, ahead, counts, width))
}

impl<'t> Structure<'t> {
    /// A struct with its tables. Notes names that two members have. The only error is a failed allocation.
    pub(crate) fn new(
        maker: TableMaker,
        item: &'t Struct,
        firsts: &mut Firsts,
    ) -> Result<Structure<'t>, AllocError>
        ensures item { IfOk result (λ s. s ≡ item.now) }
        ensures faults { OnOk result
            (firsts.new ≡ found_in firsts.old (member_twice_faults [] (struct_of item.now).members)) }
    {
        let (names, ahead, all, width) = check_members(maker, &item.members, firsts)?;
        Ok(Structure {
            item,
            names,
            ahead,
            all,
            width,
        })
    }

    /// The struct as declared.
    pub fn item(&self) -> &'t Struct
        ensures { result.now ≡ self.now }
    {
        self.item
    }

    /// The number of fields, without locks, final references and repeated names.
    pub(crate) fn width(&self) -> usize
        ensures { result ≡ fields_from [] (members_seen self.now) }
    {
        self.width
    }

    /// The place of the first member named `name`, from 0.
    pub fn place_of(&self, name: &str) -> Option<usize>
        ensures { result ≡ place_of member_bears (members_seen self.now) name.now }
    {
        self.names.find(name)
    }

    /// The first member named `name`, with its place among the members from 0.
    pub fn find(&self, name: &str) -> Option<(usize, &'t Member)>
        ensures { option_map (λ f. (f.0, member_of f.1.now)) result ≡ the_member (members_seen self.now) name.now }
    {
        let place = self.names.find(name)?;
        let member = self.item.members.get(place)?;
        Some((place, member))
    }

    /// The number of each kind before `place`.
    fn ahead_of(&self, place: usize) -> MemberCounts
        ensures { result ≡ member_counts_from no_members (take place (members_seen self.now)) }
    {
        match self.ahead.get(place) {
            Some(counts) => *counts,
            None => self.all,
        }
    }

    /// The number of the member `m` at `place`: how many of its kind come before it.
    #[tactic(auto, using(crate::proofs::Ahead::member_counts_none))]
    pub fn number(&self, place: usize, m: &Member) -> usize
        ensures { result ≡ number_in (members_seen self.now) place (member_of m.now) }
    {
        self.ahead_of(place).of(m)
    }

    /// The number by which paths name the member `m` at `place`: how many of its kind come before it, but at most 32,
    /// the limit of members.
    pub fn step(&self, place: usize, m: &Member) -> u32
        ensures { result ≡ member_number (members_seen self.now) place (member_of m.now) }
    {
        self.number(place, m).min(MEMBER_LIMIT) as u32
    }
}
