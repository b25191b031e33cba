//! The searches for unknown names in declarations.

ghost use Rattle.std.specs.List.{flat_map};
ghost use Rattle.std.specs.Prelude.{map};
ghost use Rattle.syntax.specs.Views.{class_name_of, const_of, decl_of, ident, item_of, items_of, member_of, option_of, param_of, protection_of, section_of};
ghost use Rattle.explanation_names.specs.Working.UsesFound.{uses_of_annotation, uses_of_class, uses_of_const, uses_of_decl, uses_of_item, uses_of_items, uses_of_member, uses_of_param, uses_of_section};
ghost use Rattle.explanation_names.specs.Working.Values.{Says, locals_at, uses_of_members};

use crate::found::FoundNames;
use crate::search::NameSearch;
use crate::sought::NameKind;
use crate::statements::push_params;
use syntax::tree::{ClassName, Const, Decl, Item, Member, Name, Param, Protection, Section};

impl<'s, 't> NameSearch<'s, 't> {
    fn in_const(&self, c: &Const, found: &mut FoundNames<'t>)
        ensures { Says self.now found.old found.new (uses_of_const (locals_at self.now) (const_of c.now)) }
    {
        match c {
            Const::Member(pool, _) => self.of_kind(NameKind::Pool, pool, found),
            Const::Int(_) | Const::Negative(_, _) | Const::Null(_) => {}
        }
    }

    fn in_consts(&self, constants: &[Const], found: &mut FoundNames<'t>)
        ensures { Says self.now found.old found.new
            (flat_map (uses_of_const (locals_at self.now)) (map const_of constants.now)) }
    {
        for c in constants {
            self.in_const(c, found);
        }
    }

    #[cycle(items)]
    fn in_item(&self, item: &Item, found: &mut FoundNames<'t>)
        ensures { Says self.now found.old found.new (uses_of_item (locals_at self.now) (item_of item.now)) }
    {
        match item {
            Item::Call(call) => {
                self.of_kind(NameKind::Section, &call.section, found);
                self.in_consts(&call.arguments, found);
            }
            Item::Repeat(_, items) => self.in_items(items, found),
        }
    }

    #[cycle(items)]
    fn in_items(&self, items: &[Item], found: &mut FoundNames<'t>)
        ensures { Says self.now found.old found.new (uses_of_items (locals_at self.now) (items_of items.now)) }
    {
        'items: for item in items {
            self.in_item(item, found);
        }
    }

    fn in_annotation(&self, protection: &Option<Protection>, found: &mut FoundNames<'t>)
        ensures { Says self.now found.old found.new
            (uses_of_annotation (locals_at self.now) (option_of protection_of protection.now)) }
    {
        if let Some(protection) = protection {
            self.of_kind(NameKind::Lock, &protection.first, found);
        }
    }

    fn in_member(&self, structure: &Name, member: &Member, found: &mut FoundNames<'t>)
        ensures { Says self.now found.old found.new
            (uses_of_member (locals_at self.now) (ident structure.now) (member_of member.now)) }
    {
        match member {
            Member::Lock(_) => {}
            Member::Final(reference) => self.of_kind(NameKind::Struct, &reference.target, found),
            Member::Field(field) => {
                self.in_type(&field.value_type, found);
                if let Some(protection) = &field.protection {
                    self.of_kind(NameKind::Lock, &protection.first, found);
                    self.by_annotation(structure, protection, found);
                }
            }
        }
    }

    fn in_members(&self, structure: &Name, members: &[Member], found: &mut FoundNames<'t>)
        ensures { Says self.now found.old found.new (uses_of_members self.now structure.now members.now) }
    {
        for member in members {
            self.in_member(structure, member, found);
        }
    }

    fn in_params(&self, params: &[Param], found: &mut FoundNames<'t>)
        ensures { Says self.now found.old found.new
            (flat_map (uses_of_param (locals_at self.now)) (map param_of params.now)) }
    {
        for param in params {
            self.in_type(&param.value_type, found);
        }
    }

    fn in_class(&self, class: &ClassName, found: &mut FoundNames<'t>)
        ensures { Says self.now found.old found.new (uses_of_class (locals_at self.now) (class_name_of class.now)) }
    {
        self.of_kind(NameKind::Struct, &class.structure, found);
        self.by_class(class, found);
    }

    fn in_classes(&self, classes: &[ClassName], found: &mut FoundNames<'t>)
        ensures { Says self.now found.old found.new
            (flat_map (uses_of_class (locals_at self.now)) (map class_name_of classes.now)) }
    {
        for class in classes {
            self.in_class(class, found);
        }
    }

    fn in_section(&self, section: &'t Section, found: &mut FoundNames<'t>)
        ensures { Says self.now found.old found.new (uses_of_section (locals_at self.now) (section_of section.now)) }
    {
        let mut scope = Vec::new(self.alloc);
        push_params(&section.params, &mut scope, found);
        self.in_stmts(&section.body.stmts, &mut scope, found);
        self.in_params(&section.params, found);
        if let Some(t) = &section.result {
            self.in_type(t, found);
        }
        self.in_classes(&section.listed, found);
    }

    fn in_decl(&self, decl: &'t Decl, found: &mut FoundNames<'t>)
        ensures { Says self.now found.old found.new (uses_of_decl (locals_at self.now) (decl_of decl.now)) }
    {
        match decl {
            Decl::Lock(_) => {}
            Decl::Struct(structure) => self.in_members(&structure.name, &structure.members, found),
            Decl::Global(variable) => {
                self.in_type(&variable.value_type, found);
                self.in_annotation(&variable.protection, found);
                if let Some(value) = &variable.value {
                    self.in_const(value, found);
                }
            }
            Decl::Array(array) => {
                self.in_type(&array.value_type, found);
                self.in_annotation(&array.protection, found);
            }
            Decl::Pool(pool) => self.of_kind(NameKind::Struct, &pool.target, found),
            Decl::Init(init) => {
                self.of_kind(NameKind::Pool, &init.pool, found);
                self.by_init(init, found);
                self.in_const(&init.value, found);
            }
            Decl::Atomic(section) => self.in_section(section, found),
            Decl::Helper(section) => self.in_section(section, found),
            Decl::Thread(thread) => self.in_items(&thread.items, found),
        }
    }

    /// Searches the declarations of a program.
    pub fn in_decls(&self, decls: &'t [Decl], found: &mut FoundNames<'t>)
        ensures { Says self.now found.old found.new
            (flat_map (uses_of_decl (locals_at self.now)) (map decl_of decls.now)) }
    {
        for decl in decls {
            self.in_decl(decl, found);
        }
    }
}
