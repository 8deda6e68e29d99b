// A document with what was seen of it.
ghost use Rattle.std.specs.Prelude.{◌≡◌, IfOk, IfSome};
ghost use Rattle.spec_change.specs.Change.{IsEdit};
ghost use Rattle.spec_seen.specs.Seen as spec;
ghost use Rattle.xt_edit.specs.View.{edit_of};
ghost use Rattle.xt_syntax.specs.SheetView.{space_rules_of};
ghost use Rattle.xt_tree.specs.Numbers.{IsNumbered};

use crate::copied::copy_rules;
use crate::edited::seen_edited;
use crate::rule::any_strips;
use crate::source::seen;
use std::alloc::Global;
use std::marker::Model;
use std::rc::Rc;
use xt_edit::Edit;
use xt_syntax::SpaceRules;
use xt_text::Memory;
use xt_tree::Doc;

/// A document that transformations see, with what was seen of it last, so that this follows its edits with no walk over it.
/// Contracts see the document.
pub struct Sighted {
    document: Doc,
    seen: Option<Rc<Sight>>,
}

/// What is seen by some rules.
#[derive(Drop)]
struct Sight {
    rules: Rc<SpaceRules>,
    document: Doc,
}

impl Drop for Sighted {
    fn drop(self) {
        let Sighted { document, seen } = self;
        drop(seen);
        drop(document);
    }
}

impl Model for Sighted {
    ghost use Rattle.std.specs.Prelude.{ℕ, ◌≡◌, IfSome};
    ghost use Rattle.spec_document.specs.Forest as forest;
    ghost use Rattle.xt_tree.specs.Code.{document_code};

    ghost Value = { forest.Document ℕ };

    ghost coded = { document_code };

    ghost use Rattle.spec_seen.specs.Seen as spec;
    ghost use Rattle.xt_syntax.specs.SheetView.{space_rules_of};

    ghost view = { λ s. s.document };

    ghost invariant = { λ s. IfSome s.seen (λ sight. sight.value.document ≡ spec.seen (space_rules_of sight.value.rules.value).rules s.document) };
}

impl Sighted {
    /// A document of which nothing was seen yet. Takes no memory.
    pub fn new(document: Doc) -> Sighted
        ensures { result ≡ document }
    {
        Sighted {
            document,
            seen: None,
        }
    }

    /// The document. Takes no memory.
    pub fn document(&self) -> &Doc
        ensures { result.now ≡ self.now }
    {
        &self.document
    }

    /// Does nothing: it tells proofs that the numbers of its nodes are distinct.
    pub fn distinct_numbers(&self)
        ensures { IsNumbered self.now }
    {
        self.document.distinct_numbers();
    }

    /// The same, shared.
    pub fn copy(&self, alloc: Global) -> Result<Sighted, Memory>
        ensures { IfOk result (λ copy. copy ≡ self.now) }
    {
        let document = self.document.copy(alloc)?;
        match &self.seen {
            None => Ok(Sighted {
                document,
                seen: None,
            }),
            Some(sight) => Ok(Sighted {
                document,
                seen: Some(sight.clone()?),
            }),
        }
    }

    /// What is seen of it by these rules: shared, where that is kept. Want of memory alone is an error.
    pub fn seen(&self, alloc: Global, rules: &SpaceRules) -> Result<Doc, Memory>
        ensures { IfOk result (λ seen. seen ≡ spec.seen (space_rules_of rules.now).rules self.now) }
    {
        match self.kept(rules) {
            None => seen(alloc, &self.document, rules.rules.as_slice()),
            Some(sight) => sight.document.copy(alloc),
        }
    }

    // What is kept, where it is what is seen by these rules.
    fn kept(&self, rules: &SpaceRules) -> Option<&Sight>
        ensures seen { IfSome result (λ sight. sight.now.document ≡ spec.seen (space_rules_of rules.now).rules self.now) }
        ensures rules { IfSome result (λ sight. space_rules_of sight.now.rules.value ≡ space_rules_of rules.now) }
    {
        match &self.seen {
            None => None,
            Some(sight) => {
                if sight.rules.same(rules) {
                    Some(sight)
                } else {
                    None
                }
            }
        }
    }

    /// The document that the edit made of this one, with what is seen of it by these rules, where one of them strips.
    pub fn edited(
        &self,
        alloc: Global,
        rules: &SpaceRules,
        edit: &Edit,
        document: Doc,
    ) -> Result<Sighted, Memory>
        requires { IsEdit (edit_of edit.now) self.now document }
        ensures { IfOk result (λ edited. edited ≡ document) }
    {
        if !any_strips(rules.rules.as_slice()) {
            return Ok(Sighted::new(document));
        }
        let Ok(sight) = self.sight_after(alloc, rules, edit, &document) else {
            drop(document);
            return Err(Memory);
        };
        Ok(Sighted {
            document,
            seen: Some(sight),
        })
    }

    // What is seen by these rules of the document that the edit made of this one.
    fn sight_after(
        &self,
        alloc: Global,
        rules: &SpaceRules,
        edit: &Edit,
        after: &Doc,
    ) -> Result<Rc<Sight>, Memory>
        requires { IsEdit (edit_of edit.now) self.now after.now }
        ensures { IfOk result (λ sight. sight.value.document ≡ spec.seen (space_rules_of sight.value.rules.value).rules after.now) }
    {
        let own = self.rules_like(alloc, rules)?;
        let Ok(document) = self.seen_after(alloc, rules, edit, after) else {
            drop(own);
            return Err(Memory);
        };
        let sight = Rc::new(
            alloc,
            Sight {
                rules: own,
                document,
            },
        )?;
        Ok(sight)
    }

    fn seen_after(
        &self,
        alloc: Global,
        rules: &SpaceRules,
        edit: &Edit,
        after: &Doc,
    ) -> Result<Doc, Memory>
        requires { IsEdit (edit_of edit.now) self.now after.now }
        ensures { IfOk result (λ seen. seen ≡ spec.seen (space_rules_of rules.now).rules after.now) }
    {
        let before = self.seen(alloc, rules)?;
        let list = rules.rules.as_slice();
        let seen = seen_edited(alloc, list, edit, &self.document, &before, after);
        drop(before);
        seen
    }

    // These rules: shared, where they are kept.
    fn rules_like(&self, alloc: Global, rules: &SpaceRules) -> Result<Rc<SpaceRules>, Memory>
        ensures { IfOk result (λ own. space_rules_of own.value ≡ space_rules_of rules.now) }
    {
        match self.kept(rules) {
            None => {
                let copy = copy_rules(alloc, rules)?;
                let own = Rc::new(alloc, copy)?;
                Ok(own)
            }
            Some(sight) => {
                let own = sight.rules.clone()?;
                Ok(own)
            }
        }
    }
}
