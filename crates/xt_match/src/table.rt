// The rules of a stylesheet by what a node is called, in a mode.
ghost use Rattle.std.specs.Prelude.{◌≡◌, OnOk};
ghost use Rattle.xt_syntax.specs.SheetView.{rules_of};
ghost use Rattle.xt_match.specs.Fitting.{numbers_from};
ghost use Rattle.xt_match.specs.Tabled.{AreFitting, called_of};

use crate::called::CalledKey;
use indexmap::IndexMap;
use std::alloc::Global;
use xt_syntax::Rules;
use xt_text::Memory;

/// Template rules, so that for a node those alone are tried that may match one which is called so. Which these are is
/// found when a first node is called so, and kept.
#[derive(Drop)]
pub struct RuleTable<'a> {
    pub rules: &'a Rules,
    pub(crate) lists: IndexMap<CalledKey, Vec<u64>>,
    ghost fitting: { AreFitting rules.now lists.entries },
}

impl<'a> RuleTable<'a> {
    /// These rules, of which nothing was found yet. Takes no memory.
    pub fn new(alloc: Global, rules: &'a Rules) -> RuleTable<'a>
        ensures { result.rules.now ≡ rules.now }
    {
        RuleTable {
            rules,
            lists: IndexMap::new(alloc),
        }
    }

    /// Keeps the numbers of the rules that may match.
    pub(crate) fn keep(&mut self, called: CalledKey, numbers: Vec<u64>) -> Result<(), Memory>
        requires { numbers.items ≡ numbers_from (called_of called) 0 (rules_of self.old.rules.now).rules }
        ensures { self.new.rules.now ≡ self.old.rules.now }
    {
        self.lists.insert(called, numbers)?;
        Ok(())
    }
}
