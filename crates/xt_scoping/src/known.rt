// What is declared at the top.
ghost use Rattle.std.specs.Prelude.{◌≡◌, [], map, IfOk, OnOk};
ghost use Rattle.std.specs.List.{flat_map};
ghost use Rattle.std.specs.Option.{option_copied};
ghost use Rattle.spec_compile.specs.Scoping as spec;
ghost use Rattle.spec_compile.specs.Scoping.{global_name, template_name, in_list};
ghost use Rattle.xt_top_level.specs.View.{declaration_in};
ghost use Rattle.xt_scoping.specs.Distinct.{with_names};
ghost use Rattle.xt_scoping.specs.Steps.{declared_in, set_name};

use crate::names::Names;
use crate::violation::Ranked;
use std::alloc::Global;
use xt_names::Expanded;
use xt_text::Memory;
use xt_top_level::Declaration;

/// The names that are declared at the top of a stylesheet.
#[derive(Drop)]
pub(crate) struct Known<'a> {
    pub(crate) globals: Names<'a>,
    pub(crate) templates: Names<'a>,
    pub(crate) sets: Names<'a>,
}

/// The names that these elements declare.
pub(crate) fn known_of<'a>(alloc: Global, ranked: &'a [Ranked]) -> Result<Known<'a>, Memory>
    ensures globals { IfOk result (λ known. known.globals ≡ with_names [] (flat_map global_name (declared_in ranked.now))) }
    ensures templates { IfOk result (λ known. known.templates ≡ with_names [] (flat_map template_name (declared_in ranked.now))) }
    ensures sets { IfOk result (λ known. known.sets ≡ with_names [] (flat_map set_name (declared_in ranked.now))) }
{
    let mut known = Known {
        globals: Names::new(alloc),
        templates: Names::new(alloc),
        sets: Names::new(alloc),
    };
    for element in ranked {
        add(&mut known, &element.top_level.declaration)?;
    }
    Ok(known)
}

fn add<'a>(known: &mut Known<'a>, declaration: &'a Declaration) -> Result<(), Memory>
    ensures globals { OnOk result (known.new.globals ≡ with_names known.old.globals (global_name (declaration_in declaration.now))) }
    ensures templates { OnOk result (known.new.templates ≡ with_names known.old.templates (template_name (declaration_in declaration.now))) }
    ensures sets { OnOk result (known.new.sets ≡ with_names known.old.sets (set_name (declaration_in declaration.now))) }
{
    match declaration {
        Declaration::Global(global) => {
            known.globals.insert(&global.binding.name)?;
            Ok(())
        }
        Declaration::Template(rule) => add_some(&mut known.templates, rule.template.name.as_ref()),
        Declaration::Set(set) => {
            known.sets.insert(&set.name)?;
            Ok(())
        }
        Declaration::Key(_) => Ok(()),
        Declaration::SpaceRule(_) => Ok(()),
        Declaration::Output(_) => Ok(()),
        Declaration::Alias(_) => Ok(()),
    }
}

/// Adds a name, where there is one.
pub(crate) fn add_some<'a>(names: &mut Names<'a>, name: Option<&'a Expanded>) -> Result<(), Memory>
    ensures { OnOk result (names.new ≡ with_names names.old (in_list (option_copied name.entry))) }
{
    match name {
        None => Ok(()),
        Some(name) => {
            names.insert(name)?;
            Ok(())
        }
    }
}
