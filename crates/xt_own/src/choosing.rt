// A source in which choices of template rules are made once more.
ghost use Rattle.std.specs.Prelude.{◌≡◌};
ghost use Rattle.xt_own.specs.Asking.{asked_in};

use std::alloc::Global;
use xp_eval::Eval;
use xt_match::RuleTable;
use xt_questions::Logged;
use xt_tree::Doc;
use xt_world::{Source, Stylesheet};

/// A source that notes what is asked of it, and the rules of the stylesheet. Keys are found once for all choices, and so are
/// the rules that may match a node which is called so.
#[derive(Drop)]
pub(crate) struct Choosing<'a> {
    pub(crate) world: Eval<Logged<Source<'a>>>,
    pub(crate) table: RuleTable<'a>,
}

impl<'a> Choosing<'a> {
    ghost use Rattle.std.specs.Prelude.{◌≡◌};
    ghost use Rattle.xt_own.specs.Asking.{asked_in, asked_of};

    /// This source with the keys of this stylesheet, of which none were found yet, and its rules. Takes no memory.
    pub(crate) fn new(alloc: Global, document: &'a Doc, stylesheet: &'a Stylesheet) -> Choosing<'a>
        ensures { asked_of result ≡ asked_in stylesheet.now document.now }
    {
        let source = Source::new(alloc, document, stylesheet);
        let world = Eval {
            world: Logged::new(alloc, source),
        };
        let table = RuleTable::new(alloc, &stylesheet.rules);
        Choosing { world, table }
    }
}
