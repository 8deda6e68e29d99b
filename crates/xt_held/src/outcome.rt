// What the transformation of documents comes to.
ghost use Rattle.std.specs.Prelude.{◌≡◌, ◌≤◌, IfOk, IfSome, None, Ok, OnOk, Some, []};
ghost use Rattle.std.specs.Option.{option_copied};
ghost use Rattle.spec_document.specs.Forest.{Plain};
ghost use Rattle.spec_expression.specs.declared.code.Code.TheVariants as codes;
ghost use Rattle.spec_stylesheet.specs.Sheet as plain;
ghost use Rattle.spec_structure.specs.Modules.{Modules};
ghost use Rattle.spec_run.specs.Documents.{main_name};
ghost use Rattle.spec_run.specs.Meaning.{run_of};
ghost use Rattle.spec_run.specs.Outcome as spec;
ghost use Rattle.spec_run.specs.Outcome.{Comes, document_of, outcome_by, refused_dynamic, refused_static};
ghost use Rattle.spec_run.specs.Plan.{nowhere};
ghost use Rattle.spec_run.specs.World.{setting_of};
ghost use Rattle.spec_seen.specs.Seen.{seen as seen_of};
ghost use Rattle.xt_syntax.specs.SheetView.{space_rules_of};
ghost use Rattle.xt_compile.specs.View.{refusal_in};
ghost use Rattle.xt_engine.specs.View.{refused_of};
ghost use Rattle.xt_driver.specs.View.{whole_of};
ghost use Rattle.xt_import.specs.View.{plain_of};
ghost use Rattle.xt_record.specs.Asked.{Judges, NoneMarkedAmong, marked_of};
ghost use Rattle.xt_record.specs.Sure.{AreAnswered, IsSure};
ghost use Rattle.xt_own.specs.View.{Carries, OwnDecides};
ghost use Rattle.spec_run.specs.Documents.{Parameters as Values};
ghost use Rattle.xt_world.specs.ParameterView.{parameters_of};
ghost use Rattle.xt_world.specs.SourceView.{AreFound};
ghost use Rattle.xt_world.specs.View.{truth_in};
ghost use Rattle.xt_touch.specs.View.{since_of};
ghost use Rattle.xt_held.specs.Complete.{Completes, KeepsWhere};
ghost use Rattle.xt_held.specs.Cost.{Costs, CostsRun, setting_on, setting_seen};
ghost use Rattle.xt_held.specs.Marked.{AsksLeast};
ghost use Rattle.xt_held.specs.OutcomeView.{Fits, no_counts, outcome_of, plain_in, since_after};
ghost use Rattle.xt_held.specs.RunView.{Ask, HoldsWith, KeptHolds, KeptSpared, SparedIn, SparesRecords, truth_seen};
ghost use Rattle.xt_held.specs.StylesheetView.{AnswersAs, AreCompiled, IsCompiledFrom};

use crate::counts::{Counts, counts_of, no_counts};
use crate::last_run::Kept;
use crate::stylesheet::{Compiled, copy_method};
use spec_expression::StaticCode;
use spec_items::items_change_no_outcome;
use spec_seen::labels_do_not_matter;
use std::alloc::Global;
use xt_base::{Code, Place};
use xt_compile::StaticRefusal;
use xt_driver::{Whole, run};
use xt_engine::Refused;
use xt_own::{OwnReads, Prepared};
use xt_questions::{World, copy_place};
use xt_record::{Pool, Reuse};
use xt_result::{ResultTree, shape};
use xt_runner::Runner;
use xt_spared::Spared;
use xt_strip::Sighted;
use xt_syntax::{Method, SpaceRules};
use xt_text::{Memory, Path, Text};
use xt_touch::Since;
use xt_tree::{Doc, NodeRef};
use xt_world::{FoundKeys, Parameters, SheetWorld, Stylesheet, same_run};

/// What the transformation of documents comes to (XSLT 1.0, section 2.1).
#[derive(Drop)]
pub enum Outcome {
    /// There is a result.
    Done {
        result: ResultTree,
        /// The output method that the stylesheet names, if it names one (section 16).
        method: Option<Method>,
        /// The texts of its messages, in their order (section 13).
        messages: Vec<Text>,
    },
    /// There is none.
    Refused {
        /// Why.
        code: Code,
        /// At which element of a module, or at none.
        place: Place,
        /// The texts of the messages before that.
        messages: Vec<Text>,
    },
}

/// An outcome, with what its run leaves to the next and what it took.
#[derive(Drop)]
pub(crate) struct Came {
    pub outcome: Outcome,
    /// What the run kept, where it ended with a result.
    pub kept: Option<Kept>,
    /// What the run took, where there was one.
    pub counts: Counts,
    /// What changed since the last run that ended with a result, which may be this one.
    pub since: Since,
}

/// The outcome of modules that are this on this source with these parameters: `S01` without a module `main`, else `S02` without a source,
/// else the first static refusal of the modules, else the first dynamic refusal of the run, else the result. The run takes what still
/// holds from what the last one kept, and asks again only what is marked by the changes since then.
pub(crate) fn outcome_of(
    alloc: Global,
    compiled: Option<&Compiled>,
    parameters: &Parameters,
    source: Option<&Sighted>,
    last: &Kept,
    since: Since,
) -> Result<Came, Memory>
    requires { KeptSpared (option_copied compiled) (parameters_of parameters.now) (option_copied source) last.now (since_of since) }
    ensures outcome { (modules : Modules) → AreCompiled modules (option_copied compiled.entry)
        → IfOk result (λ came. Comes modules (parameters_of parameters.now) (modules main_name) (plain_in source.entry) (outcome_of came.outcome)) }
    ensures fits { IfOk result (λ came. Fits came) }
    ensures last { IfOk result (λ came. IfSome came.kept (KeptHolds (option_copied compiled.entry) (parameters_of parameters.now) (option_copied source.entry))) }
    ensures since { IfOk result (λ came. since_of came.since ≡ since_after came.kept (since_of since)) }
    ensures cost { IfOk result (λ came. CostsRun (option_copied compiled.entry) (parameters_of parameters.now) (option_copied source.entry) last.now.records came.counts) }
    ensures asked { IfOk result (λ came. came.counts.asked ≤ marked_of (since_of since) last.now.records) }
    ensures least { IfOk result (λ came. IfSome came.kept (λ kept. AsksLeast (since_of since) last.now.records came.counts)) }
    ensures keeps { IfOk result (λ came. KeepsWhere (option_copied compiled.entry) (parameters_of parameters.now) (option_copied source.entry) came.kept) }
{
    match compiled {
        None => Ok(with_no_run(at_no_element(alloc, StaticCode::NoMain), since)),
        Some(compiled) => match source {
            None => Ok(with_no_run(at_no_element(alloc, StaticCode::NoSource), since)),
            Some(source) => transformed(alloc, compiled, parameters, source, last, since),
        },
    }
}

// The outcome where nothing is run.
fn with_no_run(outcome: Outcome, since: Since) -> Came
    ensures outcome { result.outcome ≡ outcome }
    ensures kept { result.kept ≡ None }
    ensures counts { result.counts ≡ no_counts }
    ensures since { result.since ≡ since }
{
    Came {
        outcome,
        kept: None,
        counts: no_counts(),
        since,
    }
}

/// A refusal that no element has. Takes no memory.
pub(crate) fn at_no_element(alloc: Global, code: StaticCode) -> Outcome
    ensures { outcome_of result ≡ spec.Failed (record { code = codes.Static code; place = nowhere }) [] }
{
    Outcome::Refused {
        code: Code::Static(code),
        place: Place {
            module: None,
            path: Path::new(alloc),
        },
        messages: Vec::new(alloc),
    }
}

// What the modules make of the source.
fn transformed(
    alloc: Global,
    compiled: &Compiled,
    parameters: &Parameters,
    source: &Sighted,
    last: &Kept,
    since: Since,
) -> Result<Came, Memory>
    requires { KeptSpared (Some compiled.now) (parameters_of parameters.now) (Some source.now) last.now (since_of since) }
    ensures outcome { (modules : Modules) (main : Plain) → IsCompiledFrom modules compiled.now
        → IfOk result (λ came. Comes modules (parameters_of parameters.now) (Some main) (Some (plain_of source.now)) (outcome_of came.outcome)) }
    ensures fits { IfOk result (λ came. Fits came) }
    ensures last { IfOk result (λ came. IfSome came.kept (KeptHolds (Some compiled.now) (parameters_of parameters.now) (Some source.now))) }
    ensures since { IfOk result (λ came. since_of came.since ≡ since_after came.kept (since_of since)) }
    ensures cost { IfOk result (λ came. CostsRun (Some compiled.now) (parameters_of parameters.now) (Some source.now) last.now.records came.counts) }
    ensures asked { IfOk result (λ came. came.counts.asked ≤ marked_of (since_of since) last.now.records) }
    ensures least { IfOk result (λ came. IfSome came.kept (λ kept. AsksLeast (since_of since) last.now.records came.counts)) }
    ensures keeps { IfOk result (λ came. KeepsWhere (Some compiled.now) (parameters_of parameters.now) (Some source.now) came.kept) }
{
    items_change_no_outcome();
    match compiled {
        Compiled::Stylesheet(stylesheet, space_rules, method) => {
            let over = whole_of_seen(
                alloc,
                stylesheet,
                space_rules,
                parameters,
                source,
                last,
                &since,
            )?;
            let Ok(method) = copy_method(alloc, method) else {
                drop(over);
                drop(since);
                return Err(Memory);
            };
            ended(alloc, method, over, since)
        }
        Compiled::Refused(refusal) => refused(alloc, refusal, since),
    }
}

// The outcome of modules with this static refusal.
fn refused(alloc: Global, refusal: &StaticRefusal, since: Since) -> Result<Came, Memory>
    ensures outcome { IfOk result (λ came. outcome_of came.outcome ≡ spec.Failed (refused_static (refusal_in refusal.now)) []) }
    ensures fits { IfOk result (λ came. Fits came) }
    ensures kept { IfOk result (λ came. came.kept ≡ None) }
    ensures counts { IfOk result (λ came. came.counts ≡ no_counts) }
    ensures since { IfOk result (λ came. came.since ≡ since) }
{
    let Ok(place) = copy_place(alloc, &refusal.place) else {
        drop(since);
        return Err(Memory);
    };
    let outcome = Outcome::Refused {
        code: Code::Static(refusal.code),
        place,
        messages: Vec::new(alloc),
    };
    Ok(with_no_run(outcome, since))
}

// A run that is over, with what it keeps and what it took.
#[derive(Drop)]
struct Over {
    whole: Whole,
    kept: Kept,
    counts: Counts,
}

// The same with the records that it keeps alone.
#[derive(Drop)]
struct Recorded {
    whole: Whole,
    records: Pool,
    counts: Counts,
}

// The run of the stylesheet on what it sees of the source (XSLT 1.0, section 3.4).
fn whole_of_seen(
    alloc: Global,
    stylesheet: &Stylesheet,
    space_rules: &SpaceRules,
    parameters: &Parameters,
    source: &Sighted,
    last: &Kept,
    since: &Since,
) -> Result<Over, Memory>
    requires { SparedIn stylesheet.now (truth_seen stylesheet.now space_rules.now (parameters_of parameters.now) source.now) last.now (since_of since.now) }
    ensures run { (sheet : plain.Sheet) → AnswersAs stylesheet.now sheet → space_rules_of space_rules.now ≡ sheet.space_rules
        → IfOk result (λ over. whole_of over.whole ≡ run_of (setting_of sheet (parameters_of parameters.now) (seen_of sheet.space_rules.rules (document_of (plain_of source.now))))) }
    ensures kept { IfOk result (λ over. HoldsWith stylesheet.now (truth_seen stylesheet.now space_rules.now (parameters_of parameters.now) source.now) over.kept) }
    ensures cost { IfOk result (λ over. Costs (setting_seen stylesheet.now space_rules.now (parameters_of parameters.now) source.now) last.now.records over.counts) }
    ensures asked { IfOk result (λ over. over.counts.asked ≤ marked_of (since_of since.now) last.now.records) }
    ensures least { IfOk result (λ over. AsksLeast (since_of since.now) last.now.records over.counts) }
    ensures complete { IfOk result (λ over. Completes (setting_seen stylesheet.now space_rules.now (parameters_of parameters.now) source.now) over.whole over.kept.records) }
{
    labels_do_not_matter();
    let seen = source.seen(alloc, space_rules)?;
    whole(alloc, stylesheet, parameters, &seen, last, since)
}

// The run of the stylesheet on this source. Before it is told what need not be asked again, and after it what the next run has to know for that.
fn whole(
    alloc: Global,
    stylesheet: &Stylesheet,
    parameters: &Parameters,
    source: &Doc,
    last: &Kept,
    since: &Since,
) -> Result<Over, Memory>
    requires { SparedIn stylesheet.now (truth_in stylesheet.now (parameters_of parameters.now) source.now) last.now (since_of since.now) }
    ensures run { (sheet : plain.Sheet) → AnswersAs stylesheet.now sheet
        → IfOk result (λ over. whole_of over.whole ≡ run_of (setting_of sheet (parameters_of parameters.now) (document_of (plain_of source.now)))) }
    ensures kept { IfOk result (λ over. HoldsWith stylesheet.now (truth_in stylesheet.now (parameters_of parameters.now) source.now) over.kept) }
    ensures cost { IfOk result (λ over. Costs (setting_on stylesheet.now (parameters_of parameters.now) source.now) last.now.records over.counts) }
    ensures asked { IfOk result (λ over. over.counts.asked ≤ marked_of (since_of since.now) last.now.records) }
    ensures least { IfOk result (λ over. AsksLeast (since_of since.now) last.now.records over.counts) }
    ensures complete { IfOk result (λ over. Completes (setting_on stylesheet.now (parameters_of parameters.now) source.now) over.whole over.kept.records) }
{
    source.distinct_numbers();
    let (prepared, found) = last
        .own
        .prepare(alloc, since, source, stylesheet, &last.records)?;
    let records = &last.records;
    let spared = &prepared.spared;
    let Ok(recorded) = run_recorded(
        alloc, stylesheet, parameters, source, records, spared, found,
    ) else {
        drop(prepared);
        return Err(Memory);
    };
    with_own(alloc, stylesheet, source, prepared, recorded)
}

// The run in a world of its own, in which these keys were found already, where these questions need not be asked again.
fn run_recorded(
    alloc: Global,
    stylesheet: &Stylesheet,
    parameters: &Parameters,
    source: &Doc,
    last: &Pool,
    spared: &Spared<'_>,
    keys: Vec<FoundKeys>,
) -> Result<Recorded, Memory>
    requires spares { SparesRecords (truth_in stylesheet.now (parameters_of parameters.now) source.now) last.now spared.now }
    requires found { AreFound stylesheet.now source.now keys.items }
    ensures run { (sheet : plain.Sheet) → AnswersAs stylesheet.now sheet
        → IfOk result (λ over. whole_of over.whole ≡ run_of (setting_of sheet (parameters_of parameters.now) (document_of (plain_of source.now)))) }
    ensures records { IfOk result (λ over. AreAnswered (truth_in stylesheet.now (parameters_of parameters.now) source.now) over.records) }
    ensures cost { IfOk result (λ over. Costs (setting_on stylesheet.now (parameters_of parameters.now) source.now) last.now over.counts) }
    ensures asked { IfOk result (λ over. over.counts.asked ≤ marked_of (since_of spared.now.since.now) last.now) }
    ensures least { IfOk result (λ over. AsksLeast (since_of spared.now.since.now) last.now over.counts) }
    ensures complete { IfOk result (λ over. Completes (setting_on stylesheet.now (parameters_of parameters.now) source.now) over.whole over.records) }
{
    same_run();
    source.distinct_numbers();
    let root = NodeRef::of(source.root());
    let mut reuse = Reuse::new(alloc, last, spared)?;
    let mut world = SheetWorld::new(alloc, source, stylesheet, parameters, keys);
    let mut engine = Runner::new();
    let whole = run(
        alloc,
        &mut engine,
        &mut world,
        root,
        stylesheet.globals.as_slice(),
        &mut reuse,
    );
    let whole = with_what_is_left(alloc, whole, &mut reuse, &mut world);
    with_records(whole, reuse, engine.did)
}

// The run, after which what is left is asked where nothing was run and nothing asked.
fn with_what_is_left<W: World>(
    alloc: Global,
    whole: Result<Whole, Memory>,
    reuse: &mut Reuse<'_>,
    world: &mut W,
) -> Result<Whole, Memory>
    requires { OnOk whole (IsSure (W.state world.now).truth reuse.now) }
    ensures whole { IfOk result (λ over. whole ≡ Ok over) }
    ensures sure { OnOk result (IsSure (W.state world.old).truth reuse.new) }
    ensures judges { Judges reuse.old reuse.new }
    ensures least { OnOk result (reuse.new.steps.ran ≡ 0 → reuse.new.steps.asked ≡ 0
        → NoneMarkedAmong (since_of reuse.old.spared.now.since.now) reuse.old.last.now.records.items) }
{
    let whole = whole?;
    let Ok(()) = reuse.ask_what_is_left(alloc, world) else {
        drop(whole);
        return Err(Memory);
    };
    Ok(whole)
}

// The run with the records that it keeps, where its engine did so many instructions.
fn with_records(
    whole: Result<Whole, Memory>,
    reuse: Reuse<'_>,
    did: u64,
) -> Result<Recorded, Memory>
    ensures run { IfOk result (λ over. whole ≡ Ok over.whole) }
    ensures next { IfOk result (λ over. over.records ≡ reuse.entry.next) }
    ensures records { IfOk result (λ over. (ask : Ask) → IsSure ask reuse.entry → AreAnswered ask over.records) }
    ensures ran { IfOk result (λ over. over.counts.ran ≡ reuse.entry.steps.ran) }
    ensures steps { IfOk result (λ over. over.counts.asked ≡ reuse.entry.steps.asked) }
    ensures asked { IfOk result (λ over. (ask : Ask) → IsSure ask reuse.entry → over.counts.asked ≤ marked_of (since_of reuse.entry.spared.now.since.now) reuse.entry.last.now) }
{
    match whole {
        Ok(whole) => {
            let (records, steps) = reuse.ended();
            Ok(Recorded {
                whole,
                records,
                counts: counts_of(steps, did),
            })
        }
        Err(_) => {
            drop(reuse);
            Err(Memory)
        }
    }
}

// The run with what else it keeps.
fn with_own(
    alloc: Global,
    stylesheet: &Stylesheet,
    source: &Doc,
    prepared: Prepared<'_>,
    recorded: Recorded,
) -> Result<Over, Memory>
    ensures run { IfOk result (λ over. over.whole ≡ recorded.whole) }
    ensures records { IfOk result (λ over. over.kept.records ≡ recorded.records) }
    ensures counts { IfOk result (λ over. over.counts ≡ recorded.counts) }
    ensures own { (values : Values) → Carries stylesheet.now (truth_in stylesheet.now values source.now) prepared.entry
        → IfOk result (λ over. OwnDecides stylesheet.now (truth_in stylesheet.now values source.now) over.kept.own) }
{
    let is_refused = recorded.whole.refusal.is_some();
    let records = &recorded.records;
    let Ok(own) = own_reads(alloc, stylesheet, source, prepared, records, is_refused) else {
        drop(recorded);
        return Err(Memory);
    };
    let Recorded {
        whole,
        records,
        counts,
    } = recorded;
    Ok(Over {
        whole,
        kept: Kept { records, own },
        counts,
    })
}

// What it rests on that choices are made and keys are found as they were for a run that kept these records. Where it was refused, nothing is kept of it, so
// nothing is looked for.
fn own_reads(
    alloc: Global,
    stylesheet: &Stylesheet,
    source: &Doc,
    prepared: Prepared<'_>,
    records: &Pool,
    is_refused: bool,
) -> Result<OwnReads, Memory>
    ensures { (values : Values) → Carries stylesheet.now (truth_in stylesheet.now values source.now) prepared.entry
        → IfOk result (λ own. OwnDecides stylesheet.now (truth_in stylesheet.now values source.now) own) }
{
    if is_refused {
        drop(prepared);
        return Ok(OwnReads::none(alloc));
    }
    prepared.gather(alloc, source, stylesheet, records)
}

// The outcome of a run of a stylesheet with this output method, after these changes.
fn ended(alloc: Global, method: Option<Method>, over: Over, since: Since) -> Result<Came, Memory>
    ensures outcome { IfOk result (λ came. outcome_of came.outcome ≡ outcome_by method (whole_of over.whole)) }
    ensures fits { IfOk result (λ came. Fits came) }
    ensures kept { IfOk result (λ came. IfSome came.kept (λ kept. kept ≡ over.kept)) }
    ensures counts { IfOk result (λ came. came.counts ≡ over.counts) }
    ensures since { IfOk result (λ came. since_of came.since ≡ since_after came.kept (since_of since)) }
{
    let Over {
        whole,
        kept,
        counts,
    } = over;
    let Whole {
        content,
        messages,
        refusal,
    } = whole;
    match refusal {
        None => {
            drop(since);
            match shape(&content) {
                Ok(result) => Ok(Came {
                    outcome: Outcome::Done {
                        result,
                        method,
                        messages,
                    },
                    kept: Some(kept),
                    counts,
                    since: Since::nothing(alloc),
                }),
                Err(_) => {
                    drop(method);
                    drop(kept);
                    Err(Memory)
                }
            }
        }
        Some(why) => {
            drop(method);
            drop(kept);
            Ok(refused_in_run(why, messages, counts, since))
        }
    }
}

// The outcome of a run that was refused, of which nothing is kept.
fn refused_in_run(why: Refused, messages: Vec<Text>, counts: Counts, since: Since) -> Came
    ensures outcome { outcome_of result.outcome ≡ spec.Failed (refused_dynamic (refused_of why)) messages.items }
    ensures fits { Fits result }
    ensures kept { result.kept ≡ None }
    ensures counts { result.counts ≡ counts }
    ensures since { result.since ≡ since }
{
    Came {
        outcome: Outcome::Refused {
            code: Code::Dynamic(why.code),
            place: why.place,
            messages,
        },
        kept: None,
        counts,
        since,
    }
}
