// Batches: changes that become present together, or are dropped together.
ghost use Rattle.std.specs.Prelude.{◌≡◌, ◌+◌, ◌≤◌, ℕ, List, ◌∷◌, [], IfOk, OnOk, Some, drop, false, true};
ghost use Rattle.std.specs.Option.{is_some, option_map};
ghost use Rattle.std.specs.declared.alloc.Global as alloc_type;
ghost use Rattle.std.specs.declared.string.String as string_type;
ghost use Rattle.spec_document.specs.Forest.{Document};
ghost use Rattle.spec_cost.specs.Numbers as numbers;
ghost use Rattle.spec_cost.specs.Numbers.{dropped_module};
ghost use Rattle.spec_cost.specs.Past.{Past};
ghost use Rattle.spec_run.specs.Documents.{with_module, with_parameter, with_source, without_module};
ghost use Rattle.xt_edit.specs.View.{AreBelow};
ghost use Rattle.xt_import.specs.View.{plain_of};
ghost use Rattle.xt_touch.specs.View.{since_of};
ghost use Rattle.xt_world.specs.ParameterView.{parameters_of};
ghost use Rattle.xt_held.specs.Marked.{Tells, known_in, source_marks};
ghost use Rattle.xt_held.specs.PastView.{Brings, IsPast, past_left};
ghost use Rattle.spec_cost.specs.Marking.{Given};
ghost use Rattle.xt_held.specs.RunView.{IsFaultless, IsMadeBy};
ghost use Rattle.xt_held.specs.StylesheetView.{AreCompiled};
ghost use Rattle.xt_held.specs.Tried.{AreSame};
ghost use Rattle.xt_held.specs.View.{Abandons, Begins, IsCommit, IsCurrent, IsKept, IsReady, PreparesCommit, documents_of, is_edited_by, made_of, numbers_of, gone_back, pending_of, with_edit};

use crate::held::Held;
use crate::marking::since_parameter;
use crate::origin::Origin;
use crate::ready::{Change, Coming, Ready, Recompiled};
use crate::stylesheet::compile;
use indexmap::IndexMap;
use std::alloc::Global;
use std::mem;
use xt_base::EditCode;
use xt_edit::EditFault;
use xt_strip::Sighted;
use xt_text::{Memory, Text};
use xt_touch::Since;
use xt_tree::{Doc, NodeId};
use xt_world::Parameters;

/// What is present while a batch is open, to which all goes back where it is abandoned.
#[derive(Drop)]
pub(crate) struct Batch {
    pub source: Option<Sighted>,
    pub modules: IndexMap<String, Doc>,
    pub parameters: Parameters,
    /// What had changed since the last run that ended with a result when the batch was opened.
    pub since: Since,
    /// Whether a module was changed in it, so that a commit has to compile the modules.
    pub is_edited: bool,
}

impl Held {
    /// Whether a batch is open. Takes no memory.
    pub fn pending(&self) -> bool
        ensures { result ≡ is_some (pending_of self.now) }
    {
        self.batch.is_some()
    }

    /// Opens a batch, unless one is open, which is 16. From then on each change that is adopted is pending, and runs
    /// nothing: `outcome` and `stats` speak of what was present before the batch, paths and `document` of what is pending.
    pub fn begin(&mut self, alloc: Global) -> Result<(), EditFault>
        requires { IsCurrent self.old }
        ensures answer { Begins self.old self.new result }
        ensures past { (past : Past) → IsPast past self.old → IsPast past self.new }
        ensures current { IsCurrent self.new }
    {
        if self.pending() {
            return Err(EditFault::Refused {
                code: EditCode::BatchOpen,
                line: 0,
            });
        }
        let batch = self.batch_of_present(alloc)?;
        drop(mem::replace(&mut self.batch, Some(batch)));
        Ok(())
    }

    // What is present, where no batch is open, as one that is opened goes back to it.
    fn batch_of_present(&self, alloc: Global) -> Result<Batch, Memory>
        ensures source { IfOk result (λ batch. batch.source ≡ self.now.source) }
        ensures modules { IfOk result (λ batch. AreSame self.now.modules.entries batch.modules.entries) }
        ensures parameters { IfOk result (λ batch. parameters_of batch.parameters ≡ parameters_of self.now.parameters) }
        ensures since { IfOk result (λ batch. since_of batch.since ≡ since_of self.now.last.since) }
        ensures edited { IfOk result (λ batch. batch.is_edited ≡ false) }
    {
        let since = self.last.since.copy(alloc)?;
        let parameters = self.parameters.copy(alloc)?;
        let modules = copied_modules(alloc, &self.modules)?;
        let source = copied_source(alloc, &self.source)?;
        Ok(Batch {
            source,
            modules,
            parameters,
            since,
            is_edited: false,
        })
    }

    /// Makes ready that what is pending becomes present, in one change: 17 where no batch is open. Nothing is changed. The
    /// modules are compiled again where one was changed in the batch.
    pub fn commit(&self, alloc: Global) -> Result<Ready, EditFault>
        requires { IsCurrent self.now }
        ensures answer { PreparesCommit self.now result }
        ensures brings { IfOk result (Brings (numbers_of self.now) false self.now) }
        ensures tells { IfOk result (Tells [] self.now) }
    {
        match &self.batch {
            None => Err(EditFault::Refused {
                code: EditCode::NoBatch,
                line: 0,
            }),
            Some(batch) => {
                if batch.is_edited {
                    Ok(self.commit_with_modules(alloc)?)
                } else {
                    Ok(self.commit_as_before(alloc)?)
                }
            }
        }
    }

    // The modules were changed.
    fn commit_with_modules(&self, alloc: Global) -> Result<Ready, Memory>
        requires current { IsCurrent self.now }
        requires is_open { is_some (pending_of self.now) ≡ true }
        requires edited { is_edited_by self.now.batch ≡ true }
        ensures ok { IfOk result (λ ready. IsCommit self.now ready) }
        ensures brings { IfOk result (Brings (numbers_of self.now) false self.now) }
        ensures tells { IfOk result (Tells [] self.now) }
    {
        let compiled = compile(alloc, &self.modules)?;
        let Ok(came) = self.outcome_with_modules(alloc, compiled.as_ref()) else {
            drop(compiled);
            return Err(Memory);
        };
        Ok(Ready {
            change: Change::Committed(Recompiled::Now(compiled)),
            next: self.next,
            coming: Coming::Told(came),
        })
    }

    // The modules are what they are.
    fn commit_as_before(&self, alloc: Global) -> Result<Ready, Memory>
        requires current { IsCurrent self.now }
        requires is_open { is_some (pending_of self.now) ≡ true }
        requires unedited { is_edited_by self.now.batch ≡ false }
        requires compiled { AreCompiled (documents_of self.now).modules self.now.compiled }
        ensures ok { IfOk result (λ ready. IsCommit self.now ready) }
        ensures brings { IfOk result (Brings (numbers_of self.now) false self.now) }
        ensures tells { IfOk result (Tells [] self.now) }
    {
        let since = self.last.since.copy(alloc)?;
        let came = self.outcome_after(alloc, self.source.as_ref(), since)?;
        Ok(Ready {
            change: Change::Committed(Recompiled::AsBefore),
            next: self.next,
            coming: Coming::Told(came),
        })
    }

    /// Drops what is pending: 17 where no batch is open. The numbers that were given in the batch are given to no other
    /// node. Takes no memory, and answers no other fault.
    pub fn abandon(&mut self) -> Result<(), EditFault>
        requires { IsCurrent self.old }
        ensures answer { Abandons self.old self.new result }
        ensures past { (past : Past) → IsPast past self.old → IsPast (past_left result past) self.new }
        ensures current { IsCurrent self.new }
    {
        match mem::replace(&mut self.batch, None) {
            None => Err(EditFault::Refused {
                code: EditCode::NoBatch,
                line: 0,
            }),
            Some(batch) => {
                self.go_back(batch);
                Ok(())
            }
        }
    }

    // What a batch goes back to, in place of what was pending.
    fn go_back(&mut self, batch: Batch)
        ensures { self.new ≡ gone_back batch self.old }
    {
        let Batch {
            source,
            modules,
            parameters,
            since,
            ..
        } = batch;
        drop(mem::replace(&mut self.source, source));
        drop(mem::replace(&mut self.modules, modules));
        drop(mem::replace(&mut self.parameters, parameters));
        drop(mem::replace(&mut self.last.since, since));
    }

    // Notes that a module has changed, where a batch is open.
    pub(crate) fn note_edit(&mut self)
        ensures { self.new ≡ record self.old { batch = option_map with_edit self.old.batch } }
    {
        match &mut self.batch {
            None => {}
            Some(batch) => batch.is_edited = true,
        }
    }

    // A source that is pending.
    pub(crate) fn pending_source(
        &self,
        alloc: Global,
        origin: Origin<'_>,
        document: Sighted,
        next: NodeId,
    ) -> Result<Ready, Memory>
        requires current { IsCurrent self.now }
        requires is_open { is_some (pending_of self.now) ≡ true }
        requires made { IsMadeBy origin self.now.source document }
        requires faultless { IsFaultless document }
        requires grows { made_of self.now ≤ next.number }
        requires below { AreBelow next.number document }
        ensures ok { IfOk result (λ ready. IsReady (with_source (plain_of document)) next.number self.now ready) }
        ensures brings { IfOk result (Brings (numbers.with_source document (numbers_of self.now)) false self.now) }
        ensures tells { IfOk result (Tells (source_marks (known_in self.now) origin.entry self.now.source document) self.now) }
    {
        let Ok(since) = self.since_source(alloc, origin, &document) else {
            drop(document);
            return Err(Memory);
        };
        Ok(Ready {
            change: Change::Source(document),
            next,
            coming: Coming::Pending(since),
        })
    }

    // A module that is pending. There is room for one more afterwards, so that `adopt` takes no memory.
    pub(crate) fn pending_module(
        &mut self,
        alloc: Global,
        name: &Text,
        document: Doc,
        next: NodeId,
    ) -> Result<Ready, Memory>
        requires current { IsCurrent self.old }
        requires is_open { is_some (pending_of self.old) ≡ true }
        requires grows { made_of self.old ≤ next.number }
        requires below { AreBelow next.number document }
        ensures ok { IfOk result (λ ready. IsReady (with_module name.now (plain_of document)) next.number self.new ready) }
        ensures brings { IfOk result (Brings (numbers.with_module name.now (Some document) (numbers_of self.new)) true self.new) }
        ensures tells { IfOk result (Tells [] self.new) }
        ensures kept { IsKept self.old self.new }
    {
        let Ok(key) = String::from_str(alloc, name.as_str()) else {
            drop(document);
            return Err(Memory);
        };
        let Ok(since) = self.last.since.copy(alloc) else {
            drop(document);
            return Err(Memory);
        };
        let Ok(()) = self.modules.reserve(1) else {
            drop(since);
            drop(document);
            return Err(Memory);
        };
        Ok(Ready {
            change: Change::Module(key, document, Recompiled::AsBefore),
            next,
            coming: Coming::Pending(since),
        })
    }

    // A module that is dropped while a batch is open.
    pub(crate) fn pending_drop(&self, alloc: Global, name: &Text) -> Result<Ready, Memory>
        requires current { IsCurrent self.now }
        requires is_open { is_some (pending_of self.now) ≡ true }
        ensures ok { IfOk result (λ ready. IsReady (without_module name.now) (made_of self.now) self.now ready) }
        ensures brings { IfOk result (Brings (dropped_module name.now (numbers_of self.now)) true self.now) }
        ensures tells { IfOk result (Tells [] self.now) }
    {
        let dropped = name.copy(alloc)?;
        let since = self.last.since.copy(alloc)?;
        Ok(Ready {
            change: Change::Dropped(dropped, Recompiled::AsBefore),
            next: self.next,
            coming: Coming::Pending(since),
        })
    }

    // A value of a parameter that is pending. There is room for one more afterwards, so that `adopt` takes no memory.
    pub(crate) fn pending_parameter(
        &mut self,
        alloc: Global,
        name: &Text,
        value: &Text,
    ) -> Result<Ready, Memory>
        requires current { IsCurrent self.old }
        requires is_open { is_some (pending_of self.old) ≡ true }
        ensures ok { IfOk result (λ ready. IsReady (with_parameter name.now value.now) (made_of self.new) self.new ready) }
        ensures brings { IfOk result (Brings (numbers_of self.new) false self.new) }
        ensures tells { IfOk result (Tells (Given name.now ∷ []) self.new) }
        ensures kept { IsKept self.old self.new }
    {
        let key = String::from_str(alloc, name.as_str())?;
        let kept = value.copy(alloc)?;
        let since = since_parameter(alloc, &self.last.since, name)?;
        let Ok(()) = self.parameters.reserve() else {
            drop(since);
            return Err(Memory);
        };
        Ok(Ready {
            change: Change::Parameter(key, kept),
            next: self.next,
            coming: Coming::Pending(since),
        })
    }
}

// The same source, in memory of its own.
fn copied_source(alloc: Global, source: &Option<Sighted>) -> Result<Option<Sighted>, Memory>
    ensures { IfOk result (λ copy. copy ≡ source.now) }
{
    match source {
        None => Ok(None),
        Some(source) => Ok(Some(source.copy(alloc)?)),
    }
}

// The same modules, in memory of their own, in the other order. What is put in later is found in place of what has its
// name, so from the last on each is found as before, with nothing known of their names.
fn copied_modules(
    alloc: Global,
    modules: &IndexMap<String, Doc>,
) -> Result<IndexMap<String, Doc>, Memory>
    ensures { IfOk result (λ copy. AreSame modules.now.entries copy.entries) }
{
    let mut copy = IndexMap::new(alloc);
    for index in (0..modules.len()).rev() {
        copy_module_at(alloc, modules, index, &mut copy)?;
    }
    Ok(copy)
}

// Copies the module at this index.
fn copy_module_at(
    alloc: Global,
    modules: &IndexMap<String, Doc>,
    index: usize,
    copy: &mut IndexMap<String, Doc>,
) -> Result<(), Memory>
    ensures { OnOk result (AreSame (drop (index + 1) modules.now.entries) copy.old.entries → AreSame (drop index modules.now.entries) copy.new.entries) }
{
    match modules.get_index(index) {
        None => Ok(()),
        Some((name, document)) => put_copy(alloc, name, document, copy),
    }
}

fn put_copy(
    alloc: Global,
    name: &String,
    document: &Doc,
    copy: &mut IndexMap<String, Doc>,
) -> Result<(), Memory>
    ensures { (others : List (string_type.String alloc_type.Global × Document ℕ)) → OnOk result (AreSame others copy.old.entries → AreSame ((name.now, document.now) ∷ others) copy.new.entries) }
{
    let key = String::from_str(alloc, name.as_str())?;
    let document = document.copy(alloc)?;
    copy.insert(key, document)?;
    Ok(())
}
