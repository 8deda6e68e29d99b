// What a session holds.
ghost use Rattle.std.specs.Prelude.{◌≡◌, ◌+◌, ◌<◌, ◌≤◌, ◌∷◌, [], ℕ, List, IfOk, IfSome, None, Some, false, string_bytes, true};
ghost use Rattle.std.specs.HashMap.{spare};
ghost use Rattle.std.specs.Map.{lookup};
ghost use Rattle.std.specs.Option.{is_some, option_copied, option_map};
ghost use Rattle.std.specs.Str.{chars};
ghost use Rattle.spec_document.specs.Document.{document_of};
ghost use Rattle.spec_document.specs.Forest.{size};
ghost use Rattle.spec_document.specs.Scope.{root_scope};
ghost use Rattle.spec_cost.specs.Numbers as numbers;
ghost use Rattle.spec_cost.specs.Numbers.{dropped_module, given_module, given_source};
ghost use Rattle.spec_cost.specs.Past.{Past, nothing_past};
ghost use Rattle.spec_edit.specs.Edit.{edited_nodes, edited_or_missing};
ghost use Rattle.spec_move.specs.Move.{moved_document, moved_nodes};
ghost use Rattle.spec_node.specs.declared.node_ref.NodeRef.{NodeRef};
ghost use Rattle.spec_stylesheet.specs.Place.{Place};
ghost use Rattle.spec_run.specs.Documents.{main_name, no_documents, with_module, with_parameter, with_source, without_module};
ghost use Rattle.xt_build.specs.View.{Builds, document_in};
ghost use Rattle.xt_edit.specs.View.{AreBelow, EditsPlain, edit_of};
ghost use Rattle.spec_structure.specs.Modules.{Modules};
ghost use Rattle.spec_run.specs.Outcome.{Comes};
ghost use Rattle.xt_world.specs.ParameterView.{HasRoomForOne, parameters_of, with_value};
ghost use Rattle.xt_touch.specs.View.{since_of};
ghost use Rattle.xt_held.specs.Complete.{KeepsWhere};
ghost use Rattle.xt_held.specs.Cost.{CostsRun};
ghost use Rattle.xt_held.specs.Marked.{AreToldBy, IsAskedBy, Tells, document_marks, known_in, marks_as, source_marks};
ghost use Rattle.spec_cost.specs.Marking.{AddsStyle, Anything, Given, Mark, and_marks, edit_marks, move_marks};
ghost use Rattle.xt_held.specs.RunView.{AnswersAsSome, IsFaultless, IsMadeBy, IsMadeByEdit, IsMadeByMove, LastHolds, LastServes, StaysSpared, last_known};
ghost use Rattle.xt_held.specs.StylesheetView.{AreCompiled};
ghost use Rattle.xt_import.specs.View.{is_name, plain_of};
ghost use Rattle.xt_held.specs.OutcomeView.{Fits, no_counts, outcome_of, plain_in};
ghost use Rattle.xt_held.specs.View.{HasBelow, HasRoom, IsBelow, IsCurrent, IsKept, IsKnown, IsMadeFrom, IsReady, IsFaultlessAs, Prepares, PreparesDrop, PreparesEdit, PreparesMove, PreparesParameter, StaysTold, before_by, before_with, changed_by, compiled_by, document_named, documents_of, edit_fault_of, last_in, left_by, made_of, next_batch, next_before, next_compiled, next_documents, next_last, next_made, next_numbers, next_outcome, next_pending, next_present, next_source, next_counts, numbered_document, numbers_of, outcome_in, pending_of, present_of, counts_in, with_came, with_coming, with_document, with_edit, with_edited_modules, with_recompiled};
ghost use Rattle.xt_held.specs.Called.{numbered_modules};
ghost use Rattle.xt_held.specs.PastView.{Brings, IsPast, PaysFor, edited_as, given_as, is_module};
ghost use Rattle.xt_held.specs.declared.ready.Recompiled.TheVariants as recompiled;

use crate::batch::Batch;
use crate::counts::{Counts, no_counts};
use crate::last_run::{Kept, LastRun};
use crate::marking::{since_edit, since_modules, since_move, since_parameter};
use crate::name::DocName;
use crate::origin::Origin;
use crate::outcome::{Came, Outcome, at_no_element, outcome_of};
use crate::parameter::{TriedParameter, outcome_with, parameter_fault};
use crate::ready::{Change, Coming, Ready, Recompiled};
use crate::sighting::{document_in, sighted_after};
use crate::stylesheet::{Compiled, is_stylesheet, last_known};
use crate::tried::{Tried, compiled_with, compiled_without};
use crate::unread::unread_line;
use indexmap::IndexMap;
use spec_edit::{documents_begin_well, documents_stay_normal, documents_stay_valid};
use spec_expression::StaticCode;
use spec_move::{moves_keep_documents_normal, moves_keep_documents_valid};
use std::alloc::Global;
use std::mem;
use xt_base::EditCode;
use xt_build::{BuildFault, Built, build};
use xt_edit::{Edit, EditFault, Edited, apply, relocate};
use xt_io::Line;
use xt_names::Scope;
use xt_own::OwnReads;
use xt_record::Pool;
use xt_strip::Sighted;
use xt_text::{Memory, Path, Text};
use xt_touch::Since;
use xt_tree::{Doc, NodeId};
use xt_world::Parameters;

/// The documents that are held, what the modules are, the values that parameters are given, the number of the next
/// node, and the outcome of the transformation, which is that of all these; and what the last run that ended with a
/// result left to the next, and what the last change took.
///
/// While a batch is open the documents and the parameters here are those that are pending, of which paths and changes
/// speak; what the modules are, the outcome and what the last change took are those of what is present.
#[derive(Drop)]
pub struct Held {
    pub(crate) source: Option<Sighted>,
    pub(crate) modules: IndexMap<String, Doc>,
    pub(crate) compiled: Option<Compiled>,
    pub(crate) parameters: Parameters,
    pub(crate) next: NodeId,
    pub(crate) outcome: Outcome,
    pub(crate) last: LastRun,
    pub(crate) counts: Counts,
    pub(crate) batch: Option<Batch>,
}

impl Held {
    /// No document, so that the outcome is S01; the first node will have the number 0. No run was there, and no batch is
    /// open. Takes no memory.
    pub fn new(alloc: Global) -> Held
        ensures documents { documents_of result ≡ no_documents }
        ensures present { present_of result ≡ no_documents }
        ensures pending { pending_of result ≡ None }
        ensures made { made_of result ≡ 0 }
        ensures counts { counts_in result ≡ no_counts }
        ensures past { (called : Place → NodeRef) → IsPast (nothing_past called) result }
        ensures current { IsCurrent result }
    {
        Held {
            source: None,
            modules: IndexMap::new(alloc),
            compiled: None,
            parameters: Parameters::new(alloc),
            next: NodeId { number: 0 },
            outcome: at_no_element(alloc, StaticCode::NoMain),
            last: LastRun {
                kept: Kept {
                    records: Pool::new(alloc),
                    own: OwnReads::none(alloc),
                },
                since: Since::nothing(alloc),
                before: None,
            },
            counts: no_counts(),
            batch: None,
        }
    }

    /// Makes ready that the document of these lines becomes the source. The least of their faults, 2 or 8 to 14,
    /// with its line, where they make none. Nothing is changed. The modules are not read again.
    pub fn set_source(&self, alloc: Global, body: &[Line]) -> Result<Ready, EditFault>
        requires { IsCurrent self.now }
        ensures answer { Prepares with_source self.now (document_of root_scope (made_of self.now) body.now) result }
        ensures brings { IfOk result (Brings (given_source (document_of root_scope (made_of self.now) body.now) (numbers_of self.now)) false self.now) }
        ensures tells { IfOk result (Tells (Anything ∷ []) self.now) }
    {
        match self.built(alloc, body) {
            Ok(Built { document, next }) => {
                Ok(self.source_ready(alloc, Origin::Given, document, next)?)
            }
            Err(fault) => Err(edit_fault(fault)),
        }
    }

    /// Makes ready that the document of these lines becomes the module of this name. The least of their faults,
    /// 2 or 8 to 14, with its line, where they make none. Nothing is changed but that room is made.
    pub fn set_module(
        &mut self,
        alloc: Global,
        name: &Text,
        body: &[Line],
    ) -> Result<Ready, EditFault>
        requires { IsCurrent self.old }
        ensures answer { Prepares (with_module name.now) self.new (document_of root_scope (made_of self.old) body.now) result }
        ensures brings { IfOk result (Brings (given_module name.now (document_of root_scope (made_of self.old) body.now) (numbers_of self.new)) true self.new) }
        ensures tells { IfOk result (Tells [] self.new) }
        ensures kept { IsKept self.old self.new }
        ensures past { (past : Past) → IsPast past self.old → IsPast past self.new }
    {
        match self.built(alloc, body) {
            Ok(Built { document, next }) => Ok(self.module_ready(alloc, name, document, next)?),
            Err(fault) => Err(edit_fault(fault)),
        }
    }

    /// Makes ready that there is no module of this name any more: 5 where there is none. Nothing is changed but that room
    /// is made, and the order of the modules, which does not matter.
    pub fn drop_module(&mut self, alloc: Global, name: &Text) -> Result<Ready, EditFault>
        requires { IsCurrent self.old }
        ensures answer { PreparesDrop name.now self.new result }
        ensures brings { IfOk result (Brings (dropped_module name.now (numbers_of self.new)) true self.new) }
        ensures tells { IfOk result (Tells [] self.new) }
        ensures kept { IsKept self.old self.new }
        ensures past { (past : Past) → IsPast past self.old → IsPast past self.new }
    {
        match self.module(name.as_str()) {
            None => Err(EditFault::Refused {
                code: EditCode::NoDocument,
                line: 0,
            }),
            Some(_) => Ok(self.drop_ready(alloc, name)?),
        }
    }

    /// Makes ready that the document of this name is held as this edit makes it. Else the least of its faults: 2 where a
    /// line of the body is not UTF-8, with the first such line; 5 where there is no such document; 6 to 14 as `apply` of
    /// `xt_edit` says. Nothing is changed but that room is made. An edit of the source reads no module again.
    pub fn edit(
        &mut self,
        alloc: Global,
        name: DocName<'_>,
        edit: &Edit,
    ) -> Result<Ready, EditFault>
        requires { IsCurrent self.old }
        ensures answer { PreparesEdit name.entry (edit_of edit.now) self.new result }
        ensures brings { IfOk result (Brings (edited_as name.entry (edited_nodes (made_of self.new) (edit_of edit.now)) (numbers_of self.new)) (is_module name.entry) self.new) }
        ensures tells { IfOk result (Tells (marks_as name.entry (edit_marks (known_in self.new) (edit_of edit.now)) (numbers_of self.new) (edited_as name.entry (edited_nodes (made_of self.new) (edit_of edit.now)) (numbers_of self.new))) self.new) }
        ensures kept { IsKept self.old self.new }
        ensures past { (past : Past) → IsPast past self.old → IsPast past self.new }
    {
        match unread_line(edit) {
            Some(line) => Err(EditFault::Refused {
                code: EditCode::NotUtf8,
                line,
            }),
            None => {
                let Edited { document, next } = self.edited(alloc, name, edit)?;
                Ok(self.document_ready(alloc, name, Origin::Edited(edit), document, next)?)
            }
        }
    }

    /// Makes ready that the node at the path `path` of the document of this name stands before what is at the path
    /// `other`, or after the last child there. Else the least of the faults: 5 where there is no such document; 6, 7, 9
    /// to 12, 14 or 15 as `relocate` of `xt_edit` says. Nothing is changed but that room is made. A move in the source
    /// reads no module again.
    pub fn relocate(
        &mut self,
        alloc: Global,
        name: DocName<'_>,
        path: &Path,
        other: &Path,
    ) -> Result<Ready, EditFault>
        requires { IsCurrent self.old }
        ensures answer { PreparesMove name.entry path.now other.now self.new result }
        ensures brings { IfOk result (Brings (edited_as name.entry (moved_nodes (made_of self.new) path.now other.now) (numbers_of self.new)) (is_module name.entry) self.new) }
        ensures tells { IfOk result (Tells (marks_as name.entry (move_marks (known_in self.new) path.now other.now) (numbers_of self.new) (edited_as name.entry (moved_nodes (made_of self.new) path.now other.now) (numbers_of self.new))) self.new) }
        ensures kept { IsKept self.old self.new }
        ensures past { (past : Past) → IsPast past self.old → IsPast past self.new }
    {
        let Edited { document, next } = self.relocated(alloc, name, path, other)?;
        Ok(self.document_ready(alloc, name, Origin::Moved(path, other), document, next)?)
    }

    /// Makes ready that the parameter of this name is given this value (XSLT 1.0, section 11.4): 8 where the value has
    /// a character that is none of XML, else 10 where the name is no NCName. Nothing is changed but that room is made.
    pub fn set_param(
        &mut self,
        alloc: Global,
        name: &Text,
        value: &Text,
    ) -> Result<Ready, EditFault>
        requires { IsCurrent self.old }
        ensures answer { PreparesParameter name.now value.now self.new result }
        ensures brings { IfOk result (Brings (numbers_of self.new) false self.new) }
        ensures tells { IfOk result (Tells (Given name.now ∷ []) self.new) }
        ensures kept { IsKept self.old self.new }
        ensures past { (past : Past) → IsPast past self.old → IsPast past self.new }
    {
        match parameter_fault(name, value) {
            Some(code) => Err(EditFault::Refused { code, line: 0 }),
            None => Ok(self.parameter_ready(alloc, name, value)?),
        }
    }

    /// Makes present what is ready, which was made from what is held; pending, where it is a change in a batch. What the last
    /// run with a result kept stays where the new outcome is a refusal. Takes no memory.
    pub fn adopt(&mut self, ready: Ready)
        requires { IsMadeFrom self.old ready }
        ensures documents { documents_of self.new ≡ next_documents ready self.old }
        ensures present { present_of self.new ≡ next_present ready self.old }
        ensures pending { pending_of self.new ≡ next_pending ready self.old }
        ensures made { made_of self.new ≡ next_made ready }
        ensures outcome { outcome_in self.new ≡ next_outcome ready self.old }
        ensures counts { counts_in self.new ≡ next_counts ready self.old }
        ensures last { last_in self.new ≡ next_last ready self.old }
        ensures past { (marks : List Mark) → Tells marks self.old ready → (before : Past) → IsPast before self.old → (after : Past) × PaysFor marks ready self.old before after × IsPast after self.new }
        ensures current { IsCurrent self.new }
    {
        let Ready {
            change,
            next,
            coming,
        } = ready;
        self.put(change);
        self.next = next;
        self.take_over(coming);
    }

    // In a batch there is no new outcome, and what the last run left stays but for one change more.
    fn take_over(&mut self, coming: Coming)
        ensures { self.new ≡ with_coming coming self.old }
    {
        match coming {
            Coming::Told(came) => self.take_came(came),
            Coming::Pending(since) => drop(mem::replace(&mut self.last.since, since)),
        }
    }

    // What the last run with a result kept goes only where there is a new result.
    fn take_came(&mut self, came: Came)
        ensures { self.new ≡ with_came came self.old }
    {
        let Came {
            outcome,
            kept,
            counts,
            since,
        } = came;
        drop(mem::replace(&mut self.outcome, outcome));
        drop(mem::replace(&mut self.last.since, since));
        self.counts = counts;
        match kept {
            Some(kept) => drop(mem::replace(&mut self.last.kept, kept)),
            None => {}
        }
    }

    /// What the transformation of the documents comes to that are present. Takes no memory.
    pub fn outcome(&self) -> &Outcome
        ensures { outcome_of result.now ≡ outcome_in self.now }
    {
        &self.outcome
    }

    /// What the last change took that was adopted outside a batch, or the last commit. Takes no memory.
    pub fn stats(&self) -> Counts
        ensures { result ≡ counts_in self.now }
    {
        self.counts
    }

    /// The document of this name, where there is one; while a batch is open, the pending one. Takes no memory.
    pub fn document(&self, name: DocName<'_>) -> Option<&Doc>
        ensures { plain_in result ≡ document_named name.entry (documents_of self.now) }
    {
        self.found(name)
    }

    // The same, and which numbers its nodes have.
    fn found(&self, name: DocName<'_>) -> Option<&Doc>
        ensures { option_copied result ≡ numbered_document name.entry self.now }
    {
        match name {
            DocName::Source => document_in(&self.source),
            DocName::Module(name) => self.module(name.as_str()),
        }
    }

    // The module of this name, where there is one.
    fn module(&self, name: &str) -> Option<&Doc>
        ensures { option_copied result ≡ lookup (is_name (chars name.now)) self.now.modules.entries }
    {
        self.modules.get(name)
    }

    // The document of these lines, numbered after all nodes so far, or the least of their faults.
    fn built(&self, alloc: Global, body: &[Line]) -> Result<Built, BuildFault>
        ensures answer { Builds document_in result (document_of root_scope (made_of self.now) body.now) }
        ensures next { IfOk result (λ built. built.next.number ≡ made_of self.now + 1 + size built.document.nodes) }
        ensures below { IfOk result (λ built. AreBelow built.next.number built.document) }
        ensures faultless { IfOk result (λ built. IsFaultless built.document) }
    {
        documents_begin_well();
        let scope = Scope::root(alloc)?;
        build(alloc, body, &scope, self.next)
    }

    // What the edit makes of the document of this name, where no line of a body is at fault.
    fn edited(&self, alloc: Global, name: DocName<'_>, edit: &Edit) -> Result<Edited, EditFault>
        requires { IsCurrent self.now }
        ensures answer { EditsPlain (made_of self.now) result (edited_or_missing (made_of self.now) (edit_of edit.now) (document_named name.entry (documents_of self.now))) }
        ensures edit { IfOk result (λ edited. IsMadeByEdit edit.now (numbered_document name.entry self.now) edited.document) }
        ensures faultless { IfOk result (λ edited. IsFaultlessAs name.entry edited.document) }
        ensures below { IfOk result (λ edited. AreBelow edited.next.number edited.document) }
        ensures numbers { IfOk result (λ edited. given_as name.entry edited.document (numbers_of self.now) ≡ edited_as name.entry (edited_nodes (made_of self.now) (edit_of edit.now)) (numbers_of self.now)) }
    {
        documents_stay_valid();
        documents_stay_normal();
        match self.found(name) {
            Some(document) => apply(alloc, document, edit, self.next),
            None => Err(EditFault::Refused {
                code: EditCode::NoDocument,
                line: 0,
            }),
        }
    }

    // What the document of this name is where the node at the path `path` has moved to the path `other`.
    fn relocated(
        &self,
        alloc: Global,
        name: DocName<'_>,
        path: &Path,
        other: &Path,
    ) -> Result<Edited, EditFault>
        requires { IsCurrent self.now }
        ensures answer { EditsPlain (made_of self.now) result (moved_document (made_of self.now) path.now other.now (document_named name.entry (documents_of self.now))) }
        ensures moved { IfOk result (λ edited. IsMadeByMove path.now other.now (numbered_document name.entry self.now) edited.document) }
        ensures faultless { IfOk result (λ edited. IsFaultlessAs name.entry edited.document) }
        ensures below { IfOk result (λ edited. AreBelow edited.next.number edited.document) }
        ensures numbers { IfOk result (λ edited. given_as name.entry edited.document (numbers_of self.now) ≡ edited_as name.entry (moved_nodes (made_of self.now) path.now other.now) (numbers_of self.now)) }
    {
        moves_keep_documents_valid();
        moves_keep_documents_normal();
        match self.found(name) {
            Some(document) => relocate(alloc, document, path, other, self.next),
            None => Err(EditFault::Refused {
                code: EditCode::NoDocument,
                line: 0,
            }),
        }
    }

    // Makes ready that this document is that of this name, after which the next node has this number. How it was made of the
    // present one tells what need not be asked again.
    fn document_ready(
        &mut self,
        alloc: Global,
        name: DocName<'_>,
        origin: Origin<'_>,
        document: Doc,
        next: NodeId,
    ) -> Result<Ready, Memory>
        requires current { IsCurrent self.old }
        requires made { IsMadeBy origin (numbered_document name self.old) document }
        requires faultless { IsFaultlessAs name document }
        requires grows { made_of self.old ≤ next.number }
        requires below { AreBelow next.number document }
        ensures ok { IfOk result (λ ready. IsReady (with_document name.entry (plain_of document)) next.number self.new ready) }
        ensures brings { IfOk result (Brings (given_as name.entry document (numbers_of self.new)) (is_module name.entry) self.new) }
        ensures tells { IfOk result (Tells (document_marks name.entry origin.entry self.new document) self.new) }
        ensures kept { IsKept self.old self.new }
    {
        match name {
            DocName::Source => self.source_ready(alloc, origin, document, next),
            DocName::Module(name) => self.module_ready(alloc, name, document, next),
        }
    }

    // What is seen of it is told from what was seen of the present one, where an edit made it.
    fn source_ready(
        &self,
        alloc: Global,
        origin: Origin<'_>,
        document: Doc,
        next: NodeId,
    ) -> Result<Ready, Memory>
        requires current { IsCurrent self.now }
        requires made { IsMadeBy origin self.now.source document }
        requires faultless { IsFaultless document }
        requires grows { made_of self.now ≤ next.number }
        requires below { AreBelow next.number document }
        ensures ok { IfOk result (λ ready. IsReady (with_source (plain_of document)) next.number self.now ready) }
        ensures brings { IfOk result (Brings (numbers.with_source document (numbers_of self.now)) false self.now) }
        ensures tells { IfOk result (Tells (source_marks (known_in self.now) origin.entry self.now.source document) self.now) }
    {
        let source = self.sighted(alloc, origin, document)?;
        self.sighted_ready(alloc, origin, source, next)
    }

    // The document with what is seen of it, where that is told from what was seen of the present source.
    fn sighted(&self, alloc: Global, origin: Origin<'_>, document: Doc) -> Result<Sighted, Memory>
        requires { IsMadeBy origin self.now.source document }
        ensures { IfOk result (λ sighted. sighted ≡ document) }
    {
        let known = last_known(&self.compiled, &self.last.before);
        match &self.source {
            None => Ok(Sighted::new(document)),
            Some(old) => match origin {
                Origin::Given => Ok(Sighted::new(document)),
                Origin::Edited(edit) => sighted_after(alloc, known, old, edit, document),
                Origin::Moved(_, _) => Ok(Sighted::new(document)),
            },
        }
    }

    // In a batch it runs nothing.
    fn sighted_ready(
        &self,
        alloc: Global,
        origin: Origin<'_>,
        document: Sighted,
        next: NodeId,
    ) -> Result<Ready, Memory>
        requires current { IsCurrent self.now }
        requires made { IsMadeBy origin self.now.source document }
        requires faultless { IsFaultless document }
        requires grows { made_of self.now ≤ next.number }
        requires below { AreBelow next.number document }
        ensures ok { IfOk result (λ ready. IsReady (with_source (plain_of document)) next.number self.now ready) }
        ensures brings { IfOk result (Brings (numbers.with_source document (numbers_of self.now)) false self.now) }
        ensures tells { IfOk result (Tells (source_marks (known_in self.now) origin.entry self.now.source document) self.now) }
    {
        if self.pending() {
            self.pending_source(alloc, origin, document, next)
        } else {
            self.present_source(alloc, origin, document, next)
        }
    }

    // The modules are what they are.
    fn present_source(
        &self,
        alloc: Global,
        origin: Origin<'_>,
        document: Sighted,
        next: NodeId,
    ) -> Result<Ready, Memory>
        requires current { IsCurrent self.now }
        requires alone { is_some (pending_of self.now) ≡ false }
        requires made { IsMadeBy origin self.now.source document }
        requires faultless { IsFaultless document }
        requires grows { made_of self.now ≤ next.number }
        requires below { AreBelow next.number document }
        ensures ok { IfOk result (λ ready. IsReady (with_source (plain_of document)) next.number self.now ready) }
        ensures brings { IfOk result (Brings (numbers.with_source document (numbers_of self.now)) false self.now) }
        ensures tells { IfOk result (Tells (source_marks (known_in self.now) origin.entry self.now.source document) self.now) }
    {
        let Ok(came) = self.outcome_with_source(alloc, origin, &document) else {
            drop(document);
            return Err(Memory);
        };
        Ok(Ready {
            change: Change::Source(document),
            next,
            coming: Coming::Told(came),
        })
    }

    // The outcome with this source.
    fn outcome_with_source(
        &self,
        alloc: Global,
        origin: Origin<'_>,
        document: &Sighted,
    ) -> Result<Came, Memory>
        requires known { IsKnown self.now }
        requires made { IsMadeBy origin self.now.source document.now }
        requires faultless { IsFaultless document.now }
        ensures outcome { (modules : Modules) → AreCompiled modules self.now.compiled
            → IfOk result (λ came. Comes modules (parameters_of self.now.parameters) (modules main_name) (Some (plain_of document.now)) (outcome_of came.outcome)) }
        ensures fits { IfOk result (λ came. Fits came) }
        ensures last { IfOk result (λ came. LastHolds (outcome_of came.outcome) self.now.compiled (parameters_of self.now.parameters) (Some document.now)
            (left_by came self.now.last.before self.now.last)) }
        ensures cost { IfOk result (λ came. CostsRun self.now.compiled (parameters_of self.now.parameters) (Some document.now) self.now.last.kept.records came.counts) }
        ensures asks { (told : List Mark) → AreToldBy self.now.last.kept.records told (since_of self.now.last.since)
            → IfOk result (IsAskedBy (and_marks told (source_marks (known_in self.now) origin.entry self.now.source document.now)) self.now.last.kept.records) }
        ensures keeps { IfOk result (λ came. KeepsWhere self.now.compiled (parameters_of self.now.parameters) (Some document.now) came.kept) }
    {
        let since = self.since_source(alloc, origin, document)?;
        self.outcome_after(alloc, Some(document), since)
    }

    // The outcome with this source, where the modules and the parameters are what they are, after these changes.
    pub(crate) fn outcome_after(
        &self,
        alloc: Global,
        source: Option<&Sighted>,
        since: Since,
    ) -> Result<Came, Memory>
        requires { LastServes self.now.compiled (parameters_of self.now.parameters) (option_copied source) (record self.now.last { since = since }) }
        ensures outcome { (modules : Modules) → AreCompiled modules self.now.compiled
            → IfOk result (λ came. Comes modules (parameters_of self.now.parameters) (modules main_name) (plain_in source.entry) (outcome_of came.outcome)) }
        ensures fits { IfOk result (λ came. Fits came) }
        ensures last { IfOk result (λ came. LastHolds (outcome_of came.outcome) self.now.compiled (parameters_of self.now.parameters) (option_copied source.entry)
            (left_by came self.now.last.before self.now.last)) }
        ensures cost { IfOk result (λ came. CostsRun self.now.compiled (parameters_of self.now.parameters) (option_copied source.entry) self.now.last.kept.records came.counts) }
        ensures asks { (marks : List Mark) → AreToldBy self.now.last.kept.records marks (since_of since) → IfOk result (IsAskedBy marks self.now.last.kept.records) }
        ensures keeps { IfOk result (λ came. KeepsWhere self.now.compiled (parameters_of self.now.parameters) (option_copied source.entry) came.kept) }
    {
        let compiled = self.compiled.as_ref();
        let parameters = &self.parameters;
        let kept = &self.last.kept;
        outcome_of(alloc, compiled, parameters, source, kept, since)
    }

    // What changed since the last run with a result, where this is the source from now on.
    pub(crate) fn since_source(
        &self,
        alloc: Global,
        origin: Origin<'_>,
        document: &Sighted,
    ) -> Result<Since, Memory>
        requires known { IsKnown self.now }
        requires made { IsMadeBy origin self.now.source document.now }
        ensures spared { let known = last_known self.now.compiled self.now.last.before in let given = parameters_of self.now.parameters in
            IfOk result (λ since. StaysSpared known known given given self.now.source (Some document.now) (since_of self.now.last.since) (since_of since)) }
        ensures told { (told : List Mark) → AreToldBy self.now.last.kept.records told (since_of self.now.last.since)
            → IfOk result (λ since. AreToldBy self.now.last.kept.records (and_marks told (source_marks (known_in self.now) origin.entry self.now.source document.now)) (since_of since)) }
    {
        let known = last_known(&self.compiled, &self.last.before);
        let since = &self.last.since;
        match &self.source {
            None => Since::anything(alloc),
            Some(old) => match origin {
                Origin::Given => Since::anything(alloc),
                Origin::Edited(edit) => since_edit(alloc, known, since, old, edit, document),
                Origin::Moved(path, other) => {
                    since_move(alloc, known, since, old, path, other, document)
                }
            },
        }
    }

    // In a batch no module is compiled, and nothing is run.
    fn module_ready(
        &mut self,
        alloc: Global,
        name: &Text,
        document: Doc,
        next: NodeId,
    ) -> Result<Ready, Memory>
        requires current { IsCurrent self.old }
        requires grows { made_of self.old ≤ next.number }
        requires below { AreBelow next.number document }
        ensures ok { IfOk result (λ ready. IsReady (with_module name.now (plain_of document)) next.number self.new ready) }
        ensures brings { IfOk result (Brings (numbers.with_module name.now (Some document) (numbers_of self.new)) true self.new) }
        ensures tells { IfOk result (Tells [] self.new) }
        ensures kept { IsKept self.old self.new }
    {
        if self.pending() {
            self.pending_module(alloc, name, document, next)
        } else {
            self.present_module(alloc, name, document, next)
        }
    }

    // There is room for one module more afterwards, so that `adopt` takes no memory.
    fn present_module(
        &mut self,
        alloc: Global,
        name: &Text,
        document: Doc,
        next: NodeId,
    ) -> Result<Ready, Memory>
        requires current { IsCurrent self.old }
        requires alone { is_some (pending_of self.old) ≡ false }
        requires grows { made_of self.old ≤ next.number }
        requires below { AreBelow next.number document }
        ensures ok { IfOk result (λ ready. IsReady (with_module name.now (plain_of document)) next.number self.new ready) }
        ensures brings { IfOk result (Brings (numbers.with_module name.now (Some document) (numbers_of self.new)) true self.new) }
        ensures tells { IfOk result (Tells [] self.new) }
        ensures kept { IsKept self.old self.new }
    {
        let Ok(key) = String::from_str(alloc, name.as_str()) else {
            drop(document);
            return Err(Memory);
        };
        let tried = compiled_with(alloc, &mut self.modules, name, document)?;
        let Ok(came) = self.outcome_with_modules(alloc, tried.compiled.as_ref()) else {
            drop(tried);
            return Err(Memory);
        };
        let Ok(()) = self.modules.reserve(1) else {
            drop(came);
            drop(tried);
            return Err(Memory);
        };
        let Tried { compiled, document } = tried;
        Ok(Ready {
            change: Change::Module(key, document, Recompiled::Now(compiled)),
            next,
            coming: Coming::Told(came),
        })
    }

    // The same for a module that is dropped.
    fn drop_ready(&mut self, alloc: Global, name: &Text) -> Result<Ready, Memory>
        requires { IsCurrent self.old }
        ensures ok { IfOk result (λ ready. IsReady (without_module name.now) (made_of self.new) self.new ready) }
        ensures brings { IfOk result (Brings (dropped_module name.now (numbers_of self.new)) true self.new) }
        ensures tells { IfOk result (Tells [] self.new) }
        ensures kept { IsKept self.old self.new }
    {
        if self.pending() {
            self.pending_drop(alloc, name)
        } else {
            self.present_drop(alloc, name)
        }
    }

    // What is removed takes no memory, so that `adopt` wants no room.
    fn present_drop(&mut self, alloc: Global, name: &Text) -> Result<Ready, Memory>
        requires current { IsCurrent self.old }
        requires alone { is_some (pending_of self.old) ≡ false }
        ensures ok { IfOk result (λ ready. IsReady (without_module name.now) (made_of self.new) self.new ready) }
        ensures brings { IfOk result (Brings (dropped_module name.now (numbers_of self.new)) true self.new) }
        ensures tells { IfOk result (Tells [] self.new) }
        ensures kept { IsKept self.old self.new }
    {
        let dropped = name.copy(alloc)?;
        let compiled = compiled_without(alloc, &mut self.modules, name)?;
        let Ok(came) = self.outcome_with_modules(alloc, compiled.as_ref()) else {
            drop(compiled);
            return Err(Memory);
        };
        Ok(Ready {
            change: Change::Dropped(dropped, Recompiled::Now(compiled)),
            next: self.next,
            coming: Coming::Told(came),
        })
    }

    // The outcome where modules are this.
    pub(crate) fn outcome_with_modules(
        &self,
        alloc: Global,
        compiled: Option<&Compiled>,
    ) -> Result<Came, Memory>
        requires known { IsKnown self.now }
        requires answers { AnswersAsSome (option_copied compiled) }
        ensures outcome { (modules : Modules) → AreCompiled modules (option_copied compiled.entry)
            → IfOk result (λ came. Comes modules (parameters_of self.now.parameters) (modules main_name) (documents_of self.now).source (outcome_of came.outcome)) }
        ensures fits { IfOk result (λ came. Fits came) }
        ensures last { IfOk result (λ came. LastHolds (outcome_of came.outcome) (option_copied compiled.entry) (parameters_of self.now.parameters) self.now.source
            (left_by came (before_by (option_copied compiled.entry) self.now.compiled self.now.last.before) self.now.last)) }
        ensures cost { IfOk result (λ came. CostsRun (option_copied compiled.entry) (parameters_of self.now.parameters) self.now.source self.now.last.kept.records came.counts) }
        ensures asks { (told : List Mark) → AreToldBy self.now.last.kept.records told (since_of self.now.last.since) → (modules : Modules) → AreCompiled modules (option_copied compiled.entry)
            → IfOk result (λ came. (style : List Mark) × AddsStyle modules (modules main_name) (known_in self.now) style × IsAskedBy (and_marks told style) self.now.last.kept.records came) }
        ensures keeps { IfOk result (λ came. KeepsWhere (option_copied compiled.entry) (parameters_of self.now.parameters) self.now.source came.kept) }
    {
        let known = last_known(&self.compiled, &self.last.before);
        let since = since_modules(
            alloc,
            known,
            &self.last.since,
            &self.last.kept.records,
            compiled,
        )?;
        let source = self.source.as_ref();
        let parameters = &self.parameters;
        let kept = &self.last.kept;
        outcome_of(alloc, compiled, parameters, source, kept, since)
    }

    // In a batch nothing is run.
    fn parameter_ready(&mut self, alloc: Global, name: &Text, value: &Text) -> Result<Ready, Memory>
        requires { IsCurrent self.old }
        ensures ok { IfOk result (λ ready. IsReady (with_parameter name.now value.now) (made_of self.new) self.new ready) }
        ensures brings { IfOk result (Brings (numbers_of self.new) false self.new) }
        ensures tells { IfOk result (Tells (Given name.now ∷ []) self.new) }
        ensures kept { IsKept self.old self.new }
    {
        if self.pending() {
            self.pending_parameter(alloc, name, value)
        } else {
            self.present_parameter(alloc, name, value)
        }
    }

    // There is room for one parameter more afterwards, so that `adopt` takes no memory.
    fn present_parameter(
        &mut self,
        alloc: Global,
        name: &Text,
        value: &Text,
    ) -> Result<Ready, Memory>
        requires current { IsCurrent self.old }
        requires alone { is_some (pending_of self.old) ≡ false }
        ensures ok { IfOk result (λ ready. IsReady (with_parameter name.now value.now) (made_of self.new) self.new ready) }
        ensures brings { IfOk result (Brings (numbers_of self.new) false self.new) }
        ensures tells { IfOk result (Tells (Given name.now ∷ []) self.new) }
        ensures kept { IsKept self.old self.new }
    {
        let since = since_parameter(alloc, &self.last.since, name)?;
        let compiled = self.compiled.as_ref();
        let source = self.source.as_ref();
        let tried = outcome_with(
            alloc,
            compiled,
            &mut self.parameters,
            name,
            value,
            source,
            &self.last.kept,
            since,
        )?;
        let TriedParameter { name, value, came } = tried;
        Ok(Ready {
            change: Change::Parameter(name, value),
            next: self.next,
            coming: Coming::Told(came),
        })
    }

    fn put(&mut self, change: Change)
        requires { HasRoom change self.old }
        ensures documents { documents_of self.new ≡ changed_by change (documents_of self.old) }
        ensures compiled { self.new.compiled ≡ next_compiled change self.old }
        ensures source { self.new.source ≡ next_source change self.old }
        ensures modules { numbered_modules self.new.modules.entries ≡ (next_numbers change self.old).modules }
        ensures last { last_in self.new ≡ record (last_in self.old) { before = next_before change self.old } }
        ensures batch { self.new.batch ≡ next_batch change self.old.batch }
        ensures told { StaysTold self.old self.new }
        ensures below { (first : ℕ) → HasBelow first self.old → IsBelow first change → HasBelow first self.new }
    {
        match change {
            Change::Source(document) => self.put_source(document),
            Change::Module(name, document, compiled) => self.put_module(name, document, compiled),
            Change::Dropped(name, compiled) => self.take_module(&name, compiled),
            Change::Parameter(name, value) => self.put_parameter(name, value),
            Change::Committed(compiled) => self.put_pending(compiled),
        }
    }

    fn put_source(&mut self, document: Sighted)
        ensures documents { documents_of self.new ≡ with_source (plain_of document) (documents_of self.old) }
        ensures source { self.new.source ≡ Some document }
        ensures compiled { self.new.compiled ≡ self.old.compiled }
        ensures last { last_in self.new ≡ last_in self.old }
        ensures batch { self.new.batch ≡ self.old.batch }
        ensures modules { self.new.modules ≡ self.old.modules }
        ensures told { StaysTold self.old self.new }
        ensures below { (first : ℕ) → HasBelow first self.old → AreBelow first document → HasBelow first self.new }
    {
        drop(mem::replace(&mut self.source, Some(document)));
    }

    // There is room, so the insertion does not fail.
    fn put_module(&mut self, name: String, document: Doc, compiled: Recompiled)
        requires { 0 < spare self.old.modules }
        ensures source { self.new.source ≡ self.old.source }
        ensures documents { documents_of self.new ≡ with_module (chars (string_bytes name)) (plain_of document) (documents_of self.old) }
        ensures compiled { self.new.compiled ≡ compiled_by compiled self.old.compiled }
        ensures last { last_in self.new ≡ record (last_in self.old) { before = before_with compiled self.old.compiled self.old.last.before } }
        ensures batch { self.new.batch ≡ option_map with_edit self.old.batch }
        ensures modules { numbered_modules self.new.modules.entries ≡ (numbers.with_module (chars (string_bytes name)) (Some document) (numbers_of self.old)).modules }
        ensures told { StaysTold self.old self.new }
        ensures below { (first : ℕ) → HasBelow first self.old → AreBelow first document → HasBelow first self.new }
    {
        drop(self.modules.insert(name, document));
        self.put_edited(compiled);
    }

    fn take_module(&mut self, name: &Text, compiled: Recompiled)
        ensures source { self.new.source ≡ self.old.source }
        ensures documents { documents_of self.new ≡ without_module name.now (documents_of self.old) }
        ensures compiled { self.new.compiled ≡ compiled_by compiled self.old.compiled }
        ensures last { last_in self.new ≡ record (last_in self.old) { before = before_with compiled self.old.compiled self.old.last.before } }
        ensures batch { self.new.batch ≡ option_map with_edit self.old.batch }
        ensures modules { numbered_modules self.new.modules.entries ≡ (dropped_module name.now (numbers_of self.old)).modules }
        ensures told { StaysTold self.old self.new }
        ensures below { (first : ℕ) → HasBelow first self.old → HasBelow first self.new }
    {
        drop(self.modules.shift_remove(name.as_str()));
        self.put_edited(compiled);
    }

    // A batch that is open notes that a module has changed.
    fn put_edited(&mut self, compiled: Recompiled)
        ensures { self.new ≡ with_edited_modules compiled self.old }
    {
        self.put_recompiled(compiled);
        self.note_edit();
    }

    fn put_recompiled(&mut self, compiled: Recompiled)
        ensures { self.new ≡ with_recompiled compiled self.old }
    {
        match compiled {
            Recompiled::AsBefore => {}
            Recompiled::Now(compiled) => self.put_compiled(compiled),
        }
    }

    // What the modules were stays where they were a stylesheet and are none.
    fn put_compiled(&mut self, compiled: Option<Compiled>)
        ensures { self.new ≡ with_recompiled (recompiled.Now compiled) self.old }
    {
        let is_run = is_stylesheet(&compiled);
        let was = mem::replace(&mut self.compiled, compiled);
        if is_run {
            drop(was);
            drop(mem::replace(&mut self.last.before, None));
        } else if is_stylesheet(&was) {
            drop(mem::replace(&mut self.last.before, was));
        } else {
            drop(was);
        }
    }

    // There is room, so that no memory is taken.
    fn put_parameter(&mut self, name: String, value: Text)
        requires { HasRoomForOne self.old.parameters }
        ensures source { self.new.source ≡ self.old.source }
        ensures documents { documents_of self.new ≡ with_parameter (chars (string_bytes name)) value (documents_of self.old) }
        ensures compiled { self.new.compiled ≡ self.old.compiled }
        ensures last { last_in self.new ≡ last_in self.old }
        ensures batch { self.new.batch ≡ self.old.batch }
        ensures modules { self.new.modules ≡ self.old.modules }
        ensures told { StaysTold self.old self.new }
        ensures below { (first : ℕ) → HasBelow first self.old → HasBelow first self.new }
    {
        self.parameters.keep(name, value);
    }

    // What is pending is present from then on.
    fn put_pending(&mut self, compiled: Recompiled)
        ensures source { self.new.source ≡ self.old.source }
        ensures documents { documents_of self.new ≡ documents_of self.old }
        ensures compiled { self.new.compiled ≡ compiled_by compiled self.old.compiled }
        ensures last { last_in self.new ≡ record (last_in self.old) { before = before_with compiled self.old.compiled self.old.last.before } }
        ensures batch { self.new.batch ≡ None }
        ensures modules { self.new.modules ≡ self.old.modules }
        ensures told { StaysTold self.old self.new }
        ensures below { (first : ℕ) → HasBelow first self.old → HasBelow first self.new }
    {
        drop(mem::replace(&mut self.batch, None));
        self.put_recompiled(compiled);
    }
}

// The same fault of a change.
fn edit_fault(fault: BuildFault) -> EditFault
    ensures { edit_fault_of fault ≡ result }
{
    match fault {
        BuildFault::Memory => EditFault::Memory,
        BuildFault::Refused(fault) => EditFault::Refused {
            code: fault.code,
            line: fault.line,
        },
    }
}
