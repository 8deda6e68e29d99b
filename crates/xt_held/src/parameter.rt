// Values that parameters are given.
ghost use Rattle.std.specs.Prelude.{◌≡◌, ◌≤◌, IfOk, IfSome, OnOk, string_bytes};
ghost use Rattle.std.specs.List.{list_all};
ghost use Rattle.std.specs.Option.{option_copied, option_map};
ghost use Rattle.std.specs.Str.{chars};
ghost use Rattle.spec_document.specs.Character as characters;
ghost use Rattle.spec_structure.specs.Modules.{Modules};
ghost use Rattle.spec_run.specs.Documents.{main_name, parameter_fault};
ghost use Rattle.spec_run.specs.Outcome.{Comes};
ghost use Rattle.xt_base.specs.Code.{edit_number};
ghost use Rattle.xt_world.specs.ParameterView.{HasRoomForOne, parameters_of, with_value};
ghost use Rattle.xt_touch.specs.View.{since_of};
ghost use Rattle.xt_record.specs.Asked.{marked_of};
ghost use Rattle.xt_held.specs.Complete.{KeepsWhere};
ghost use Rattle.xt_held.specs.Cost.{CostsRun};
ghost use Rattle.xt_held.specs.Marked.{AsksLeast};
ghost use Rattle.xt_held.specs.OutcomeView.{Fits, outcome_of, plain_in, since_after};
ghost use Rattle.xt_held.specs.RunView.{KeptHolds, KeptSpared};
ghost use Rattle.xt_held.specs.StylesheetView.{AreCompiled};

use crate::last_run::Kept;
use crate::outcome::{Came, outcome_of};
use crate::stylesheet::Compiled;
use std::alloc::Global;
use xt_base::EditCode;
use xt_names::{is_char, is_ncname};
use xt_strip::Sighted;
use xt_text::{Memory, Text};
use xt_touch::Since;
use xt_world::Parameters;

/// Why the parameter of this name may not be given this value: one of its characters, else the name.
pub(crate) fn parameter_fault(name: &Text, value: &Text) -> Option<EditCode>
    ensures { option_map edit_number result ≡ parameter_fault name.now value.now }
{
    if has_only_chars(value.as_str()) {
        if is_ncname(name.as_str()) {
            None
        } else {
            Some(EditCode::BadName)
        }
    } else {
        Some(EditCode::BadLine)
    }
}

// Whether each character is one of XML.
fn has_only_chars(text: &str) -> bool
    ensures { result ≡ list_all characters.is_char (chars text.now) }
{
    text.chars().all(|character| is_char(character))
}

/// A parameter with a value that was tried, and what came then.
#[derive(Drop)]
pub(crate) struct TriedParameter {
    pub name: String,
    pub value: Text,
    pub came: Came,
}

/// The outcome of modules that are this on this source where the parameter of this name has this value, by a run that takes
/// what still holds from what the last one kept. Afterwards the parameters are as before, with room for one more.
pub(crate) fn outcome_with(
    alloc: Global,
    compiled: Option<&Compiled>,
    parameters: &mut Parameters,
    name: &Text,
    value: &Text,
    source: Option<&Sighted>,
    last: &Kept,
    since: Since,
) -> Result<TriedParameter, Memory>
    requires { KeptSpared (option_copied compiled) (with_value name.now value.now (parameters_of parameters.now)) (option_copied source) last.now (since_of since) }
    ensures outcome { (modules : Modules) → AreCompiled modules (option_copied compiled.entry)
        → IfOk result (λ tried. Comes modules (with_value name.now value.now (parameters_of parameters.old)) (modules main_name) (plain_in source.entry) (outcome_of tried.came.outcome)) }
    ensures fits { IfOk result (λ tried. Fits tried.came) }
    ensures last { IfOk result (λ tried. IfSome tried.came.kept (KeptHolds (option_copied compiled.entry) (with_value name.now value.now (parameters_of parameters.old)) (option_copied source.entry))) }
    ensures since { IfOk result (λ tried. since_of tried.came.since ≡ since_after tried.came.kept (since_of since)) }
    ensures cost { IfOk result (λ tried. CostsRun (option_copied compiled.entry) (with_value name.now value.now (parameters_of parameters.old)) (option_copied source.entry) last.now.records tried.came.counts) }
    ensures asked { IfOk result (λ tried. tried.came.counts.asked ≤ marked_of (since_of since) last.now.records) }
    ensures least { IfOk result (λ tried. IfSome tried.came.kept (λ kept. AsksLeast (since_of since) last.now.records tried.came.counts)) }
    ensures keeps { IfOk result (λ tried. KeepsWhere (option_copied compiled.entry) (with_value name.now value.now (parameters_of parameters.old)) (option_copied source.entry) tried.came.kept) }
    ensures name { IfOk result (λ tried. chars (string_bytes tried.name) ≡ name.now) }
    ensures value { IfOk result (λ tried. tried.value ≡ value.now) }
    ensures room { OnOk result (HasRoomForOne parameters.new) }
    ensures kept { parameters_of parameters.new ≡ parameters_of parameters.old }
{
    let key = String::from_str(alloc, name.as_str())?;
    let kept = value.copy(alloc)?;
    let before = parameters.give(alloc, name, value)?;
    let came = outcome_of(alloc, compiled, parameters, source, last, since);
    parameters.take_back(before);
    let came = came?;
    let Ok(()) = parameters.reserve() else {
        drop(came);
        return Err(Memory);
    };
    Ok(TriedParameter {
        name: key,
        value: kept,
        came,
    })
}
