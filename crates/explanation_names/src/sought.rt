//! The kinds of things that a name is looked up as.

ghost use Rattle.std.specs.Option.{option_map};
ghost use Rattle.std.specs.Prelude.{◌≡◌};
ghost use Rattle.resolution.specs.Scopes.{declared};
ghost use Rattle.syntax.specs.Views.{decl_of};
ghost use Rattle.explanation_names.specs.Working.Found.{declared_as};
ghost use Rattle.explanation_names.specs.NearNames.{can_be_local, declares};
ghost use Rattle.explanation_names.specs.Working.Values.{ident_at};

use syntax::tree::{Decl, Name};

/// The kind of thing that a name is looked up as.
#[derive(Clone, Copy)]
pub enum NameKind {
    /// A value by its name alone: a global, or a local.
    Value,
    /// Something with an index: an array, or a pool.
    Indexed,
    /// Something before a dot: a local.
    Local,
    /// A struct.
    Struct,
    /// A pool.
    Pool,
    /// A section.
    Section,
    /// A helper.
    Helper,
    /// A lock of the top level.
    Lock,
}

impl NameKind {
    /// Whether a local is of this kind.
    pub fn can_be_local(self) -> bool
        ensures { result ≡ can_be_local self }
    {
        matches!(self, NameKind::Value | NameKind::Local)
    }

    /// Whether a declaration is of this kind.
    fn is_of(self, decl: &Decl) -> bool
        ensures { result ≡ declares (decl_of decl.now) self }
    {
        match decl {
            Decl::Lock(_) => matches!(self, NameKind::Lock),
            Decl::Struct(_) => matches!(self, NameKind::Struct),
            Decl::Global(_) => matches!(self, NameKind::Value),
            Decl::Array(_) => matches!(self, NameKind::Indexed),
            Decl::Pool(_) => matches!(self, NameKind::Indexed | NameKind::Pool),
            Decl::Atomic(_) => matches!(self, NameKind::Section),
            Decl::Helper(_) => matches!(self, NameKind::Helper),
            Decl::Init(_) | Decl::Thread(_) => false,
        }
    }

    /// The name that is declared, if the declaration is of this kind.
    pub fn declared_as(self, decl: &Decl) -> Option<&Name>
        ensures { option_map ident_at result ≡ declared_as self (decl_of decl.now) }
    {
        if self.is_of(decl) {
            declared(decl)
        } else {
            None
        }
    }
}

/// The name that is declared; an `init` declares none.
pub fn declared(decl: &Decl) -> Option<&Name>
    ensures { option_map ident_at result ≡ declared (decl_of decl.now) }
{
    match decl {
        Decl::Lock(name) => Some(name),
        Decl::Struct(structure) => Some(&structure.name),
        Decl::Global(variable) => Some(&variable.name),
        Decl::Array(array) => Some(&array.name),
        Decl::Pool(pool) => Some(&pool.name),
        Decl::Init(_) => None,
        Decl::Atomic(section) => Some(&section.name),
        Decl::Helper(section) => Some(&section.name),
        Decl::Thread(thread) => Some(&thread.name),
    }
}
