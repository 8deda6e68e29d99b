// Global variables and named templates that are declared twice.
ghost use Rattle.std.specs.Prelude.{◌≡◌, ◌==◌, ◌&&◌, ◌||◌, ◌++◌, ℕ, OnOk};
ghost use Rattle.std.specs.List.{flat_map};
ghost use Rattle.std.specs.Option.{option_copied};
ghost use Rattle.spec_document.specs.Name as spec;
ghost use Rattle.spec_compile.specs.Scoping.{global_name, if_so, in_list, is_named, template_name};
ghost use Rattle.xt_syntax.specs.PartView.{site_of};
ghost use Rattle.xt_top_level.specs.View.{declaration_in};
ghost use Rattle.xt_scoping.specs.Precedences.{is_declared};
ghost use Rattle.xt_scoping.specs.Told.{doubles_at};
ghost use Rattle.xt_scoping.specs.View.{found_in, ranked_in};

use crate::declared::Declared;
use crate::violation::{Ranked, Violation};
use spec_expression::StaticCode;
use std::alloc::Global;
use xt_names::Expanded;
use xt_text::Memory;
use xt_top_level::Declaration;

/// What was declared before an element at the top.
#[derive(Drop)]
pub(crate) struct Earlier<'a> {
    pub(crate) globals: Declared<'a>,
    pub(crate) templates: Declared<'a>,
}

impl<'a> Earlier<'a> {
    /// Adds the violations of an element that declares again what was declared, and what it declares.
    pub(crate) fn declare(
        &mut self,
        alloc: Global,
        element: &'a Ranked,
        found: &mut Vec<Violation>,
    ) -> Result<(), Memory>
        ensures found { OnOk result (found_in found.new.items ≡ found_in found.old.items ++ doubles_at self.old (ranked_in element.now)) }
        ensures globals { OnOk result ((p : ℕ) (n : spec.Expanded) → is_declared self.new.globals p n ≡ (is_declared self.old.globals p n || ((element.now.precedence == p) && is_named (global_name (declaration_in element.now.top_level.declaration)) n))) }
        ensures templates { OnOk result ((p : ℕ) (n : spec.Expanded) → is_declared self.new.templates p n ≡ (is_declared self.old.templates p n || ((element.now.precedence == p) && is_named (template_name (declaration_in element.now.top_level.declaration)) n))) }
    {
        let top_level = &element.top_level;
        let global = global_of(&top_level.declaration);
        let template = template_of(&top_level.declaration);
        self.globals.declare(
            alloc,
            element.precedence,
            global,
            StaticCode::DoubleGlobal,
            &top_level.site,
            found,
        )?;
        self.templates.declare(
            alloc,
            element.precedence,
            template,
            StaticCode::DoubleTemplate,
            &top_level.site,
            found,
        )?;
        Ok(())
    }
}

// The name of the global variable that is declared.
fn global_of<'a>(declaration: &'a Declaration) -> Option<&'a Expanded>
    ensures { in_list (option_copied result) ≡ global_name (declaration_in declaration.now) }
{
    match declaration {
        Declaration::Global(global) => Some(&global.binding.name),
        Declaration::Template(_) => None,
        Declaration::Set(_) => None,
        Declaration::Key(_) => None,
        Declaration::SpaceRule(_) => None,
        Declaration::Output(_) => None,
        Declaration::Alias(_) => None,
    }
}

// The name of the template that is declared, where it has one.
fn template_of<'a>(declaration: &'a Declaration) -> Option<&'a Expanded>
    ensures { in_list (option_copied result) ≡ template_name (declaration_in declaration.now) }
{
    match declaration {
        Declaration::Template(rule) => rule.template.name.as_ref(),
        Declaration::Global(_) => None,
        Declaration::Set(_) => None,
        Declaration::Key(_) => None,
        Declaration::SpaceRule(_) => None,
        Declaration::Output(_) => None,
        Declaration::Alias(_) => None,
    }
}
