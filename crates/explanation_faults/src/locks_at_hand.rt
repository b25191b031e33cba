//! The lock that could protect what does not have one.

ghost use Rattle.std.specs.Prelude.{◌≡◌, None, if◌then◌else◌, map};
ghost use Rattle.std.specs.Option.{option_map, option_or};
ghost use Rattle.syntax.specs.Views.{decl_of, ident, member_of, option_of, protection_of};
ghost use Rattle.explanation_faults.specs.Working.LocksFound.{field_lacks_lock, global_lock, lacks_lock, lock_at_hand, lock_for, lock_in, own_lock, some_lacks_lock};
ghost use Rattle.explanation_faults.specs.LimitsPassed.{own_lock_in};
ghost use Rattle.explanation_names.specs.Working.Values.{ident_at};

use syntax::tree::{Decl, Member, Name, Protection};

fn lock_in(decl: &Decl) -> Option<&Name>
    ensures { option_map ident_at result ≡ lock_in (decl_of decl.now) }
{
    match decl {
        Decl::Lock(name) => Some(name),
        Decl::Struct(_)
        | Decl::Global(_)
        | Decl::Array(_)
        | Decl::Pool(_)
        | Decl::Init(_)
        | Decl::Atomic(_)
        | Decl::Helper(_)
        | Decl::Thread(_) => None,
    }
}

/// The name of the lock that `member` declares, if it declares one.
pub fn own_lock_in(member: &Member) -> Option<&Name>
    ensures { option_map ident_at result ≡ own_lock_in (member_of member.now) }
{
    match member {
        Member::Lock(name) => Some(name),
        Member::Final(_) | Member::Field(_) => None,
    }
}

/// The first lock of the top level.
fn global_lock(decls: &[Decl]) -> Option<&Name>
    ensures { option_map ident_at result ≡ global_lock (map decl_of decls.now) }
{
    for decl in decls {
        if let Some(name) = lock_in(decl) {
            return Some(name);
        }
    }
    None
}

/// The first lock of a struct.
fn own_lock(members: &[Member]) -> Option<&Name>
    ensures { option_map ident_at result ≡ own_lock (map member_of members.now) }
{
    for member in members {
        if let Some(name) = own_lock_in(member) {
            return Some(name);
        }
    }
    None
}

/// Whether the name starts at byte `at` and does not have an annotation.
fn lacks_lock(at: usize, name: &Name, protection: &Option<Protection>) -> bool
    ensures { result ≡ lacks_lock at (ident name.now) (option_of protection_of protection.now) }
{
    match protection {
        None => name.start as usize == at,
        Some(_) => false,
    }
}

fn field_lacks_lock(at: usize, member: &Member) -> bool
    ensures { result ≡ field_lacks_lock at (member_of member.now) }
{
    match member {
        Member::Field(field) => lacks_lock(at, &field.name, &field.protection),
        Member::Lock(_) | Member::Final(_) => false,
    }
}

/// Whether a field of a struct whose name starts at byte `at` does not have an annotation.
fn some_lacks_lock(at: usize, members: &[Member]) -> bool
    ensures { result ≡ some_lacks_lock at (map member_of members.now) }
{
    for member in members {
        if field_lacks_lock(at, member) {
            return true;
        }
    }
    false
}

/// The first global lock, if `is_wanted` is true.
fn global_lock_if(is_wanted: bool, decls: &[Decl]) -> Option<&Name>
    ensures { option_map ident_at result ≡ (if is_wanted then global_lock (map decl_of decls.now) else None) }
{
    if is_wanted { global_lock(decls) } else { None }
}

/// The first lock that could protect a field of a struct with these members.
fn lock_for_field<'a>(decls: &'a [Decl], members: &'a [Member]) -> Option<&'a Name>
    ensures { option_map ident_at result ≡ option_or (own_lock (map member_of members.now))
        (global_lock (map decl_of decls.now)) }
{
    match own_lock(members) {
        Some(own) => Some(own),
        None => global_lock(decls),
    }
}

/// The first lock that could protect what `decl` declares at byte `at` without an annotation.
fn lock_for<'a>(decls: &'a [Decl], at: usize, decl: &'a Decl) -> Option<&'a Name>
    ensures { option_map ident_at result ≡ lock_for (map decl_of decls.now) at (decl_of decl.now) }
{
    match decl {
        Decl::Struct(structure) if some_lacks_lock(at, &structure.members) => {
            lock_for_field(decls, &structure.members)
        }
        Decl::Global(variable) => {
            global_lock_if(lacks_lock(at, &variable.name, &variable.protection), decls)
        }
        Decl::Array(array) => global_lock_if(lacks_lock(at, &array.name, &array.protection), decls),
        Decl::Struct(_)
        | Decl::Lock(_)
        | Decl::Pool(_)
        | Decl::Init(_)
        | Decl::Atomic(_)
        | Decl::Helper(_)
        | Decl::Thread(_) => None,
    }
}

/// The first lock that could protect what is declared at byte `at` without an annotation.
pub fn lock_at_hand<'a>(decls: &'a [Decl], at: usize) -> Option<&'a Name>
    ensures { option_map ident_at result ≡ lock_at_hand (map decl_of decls.now) at }
{
    for decl in decls {
        if let Some(name) = lock_for(decls, at, decl) {
            return Some(name);
        }
    }
    None
}
