// Names that are declared twice.
ghost use Rattle.std.specs.Prelude.{◌≡◌, ◌==◌, ◌&&◌, ◌||◌, ◌++◌, [], ℕ, not, IfOk, OnOk};
ghost use Rattle.std.specs.List.{flat_map};
ghost use Rattle.std.specs.Option.{option_copied};
ghost use Rattle.spec_document.specs.Name as spec;
ghost use Rattle.spec_compile.specs.Scoping.{if_so, in_list, is_named};
ghost use Rattle.xt_syntax.specs.PartView.{site_of};
ghost use Rattle.xt_scoping.specs.Precedences.{is_declared};
ghost use Rattle.xt_scoping.specs.View.{found_in};

use crate::key::Key;
use crate::report::report_if;
use crate::violation::Violation;
use indexmap::IndexSet;
use spec_expression::StaticCode;
use std::alloc::Global;
use std::marker::Model;
use xt_names::Expanded;
use xt_syntax::Site;
use xt_text::Memory;

/// Names with the precedences at which they are declared.
#[derive(Drop)]
pub(crate) struct Declared<'a> {
    keys: IndexSet<(u64, Key<'a>)>,
}

impl<'a> Model for Declared<'a> {
    ghost use Rattle.std.specs.Prelude.{ℕ, List};
    ghost use Rattle.spec_document.specs.Name.{Expanded};

    ghost Value = { List (ℕ × Expanded) };

    ghost use Rattle.xt_scoping.specs.Precedences.{declared_by};

    ghost view = { λ d. declared_by d.keys.keys };
}

impl<'a> Declared<'a> {
    /// No names. Takes no memory.
    pub(crate) fn new(alloc: Global) -> Declared<'a>
        ensures { result ≡ [] }
    {
        Declared {
            keys: IndexSet::new(alloc),
        }
    }

    /// Adds a violation where the name is declared at this precedence already, and declares it.
    pub(crate) fn declare(
        &mut self,
        alloc: Global,
        precedence: u64,
        name: Option<&'a Expanded>,
        code: StaticCode,
        site: &Site,
        found: &mut Vec<Violation>,
    ) -> Result<(), Memory>
        ensures found { OnOk result (found_in found.new.items ≡ found_in found.old.items ++ flat_map (λ n. if_so (is_declared self.old precedence n) code (site_of site.now)) (in_list (option_copied name.entry))) }
        ensures declared { OnOk result ((p : ℕ) (n : spec.Expanded) → is_declared self.new p n ≡ (is_declared self.old p n || ((precedence == p) && is_named (in_list (option_copied name.entry)) n))) }
    {
        match name {
            None => Ok(()),
            Some(name) => {
                let is_new = self.insert(precedence, name)?;
                report_if(alloc, !is_new, code, site, found)
            }
        }
    }

    // Adds a name, and says whether it was not there at this precedence.
    fn insert(&mut self, precedence: u64, name: &'a Expanded) -> Result<bool, Memory>
        ensures new { IfOk result (λ is_new. is_new ≡ not (is_declared self.old precedence name.now)) }
        ensures declared { OnOk result ((p : ℕ) (n : spec.Expanded) → is_declared self.new p n ≡ (is_declared self.old p n || ((precedence == p) && spec.same_name n name.now))) }
    {
        let is_new = self.keys.insert((precedence, Key { name }))?;
        Ok(is_new)
    }
}
