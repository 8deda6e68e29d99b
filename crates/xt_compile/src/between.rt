// The second pass: the first of the faults between elements.
ghost use Rattle.std.specs.Prelude.{◌≡◌, ℕ, false, ◌++◌, ◌∷◌, [], List, Some, IfOk, OnOk, bytes_eq, if◌then◌else◌, map};
ghost use Rattle.std.specs.List.{filter, list_any};
ghost use Rattle.spec_compile.specs.Scoping as scoping;
ghost use Rattle.spec_compile.specs.Sheet as spec;
ghost use Rattle.xt_compile.specs.Faulty.{AreFaulty};
ghost use Rattle.xt_compile.specs.View.{refusals_in};
ghost use Rattle.xt_import.specs.View.{is_name};
ghost use Rattle.xt_scoping.specs.View.{violation_in};
ghost use Rattle.xt_structure.specs.View.{fault_in, faults_in};

use crate::fault::{StaticRefusal, earlier_of, refusal_at};
use indexmap::IndexSet;
use std::alloc::Global;
use xt_scoping::Violation;
use xt_structure::Fault;
use xt_text::{Memory, Text};

/// The first of the faults between elements: by module in the order of these names, then by place in document order,
/// then by code. They are gone through for the first module that has one.
pub(crate) fn first_violation(
    alloc: Global,
    names: &[Text],
    violations: &[Violation],
) -> Result<Option<StaticRefusal>, Memory>
    ensures { IfOk result (λ first. refusals_in first ≡ spec.first_violation names.now (map violation_in violations.now)) }
{
    let faulty = faulty_modules(alloc, violations)?;
    first_by_name(alloc, &faulty, names, violations)
}

// The same where these are the names of the modules in which faults stand.
fn first_by_name(
    alloc: Global,
    faulty: &IndexSet<String>,
    names: &[Text],
    violations: &[Violation],
) -> Result<Option<StaticRefusal>, Memory>
    ensures { IfOk result (λ first. AreFaulty (map violation_in violations.now) faulty.now.keys → refusals_in first ≡ spec.first_violation names.now (map violation_in violations.now)) }
{
    for name in names {
        match first_where_faulty(alloc, faulty, name, violations)? {
            None => {}
            Some(fault) => {
                let Ok(name) = name.copy(alloc) else {
                    drop(fault);
                    return Err(Memory);
                };
                return Ok(Some(refusal_at(name, fault)));
            }
        }
    }
    Ok(None)
}

// The names of the modules in which faults stand.
fn faulty_modules(alloc: Global, violations: &[Violation]) -> Result<IndexSet<String>, Memory>
    ensures { IfOk result (λ faulty. AreFaulty (map violation_in violations.now) faulty.keys) }
{
    let mut faulty = IndexSet::new(alloc);
    for violation in violations {
        add_module(alloc, &mut faulty, violation)?;
    }
    Ok(faulty)
}

fn add_module(
    alloc: Global,
    faulty: &mut IndexSet<String>,
    violation: &Violation,
) -> Result<(), Memory>
    ensures { OnOk result ((before : List scoping.Violation) → AreFaulty before faulty.old.keys → AreFaulty (before ++ violation_in violation.now ∷ []) faulty.new.keys) }
{
    match &violation.place.module {
        None => Ok(()),
        Some(name) => add_name(alloc, faulty, name),
    }
}

fn add_name(alloc: Global, faulty: &mut IndexSet<String>, name: &Text) -> Result<(), Memory>
    ensures { OnOk result ((q : List ℕ) → list_any (is_name q) faulty.new.keys ≡ false → (list_any (is_name q) faulty.old.keys ≡ false) × (bytes_eq name.now q ≡ false)) }
{
    let key = String::from_str(alloc, name.as_str())?;
    let _ = faulty.insert(key)?;
    Ok(())
}

// The first of those in the module of this name; none, where it is none of the faulty ones.
fn first_where_faulty(
    alloc: Global,
    faulty: &IndexSet<String>,
    name: &Text,
    violations: &[Violation],
) -> Result<Option<Fault>, Memory>
    ensures { IfOk result (λ first. AreFaulty (map violation_in violations.now) faulty.now.keys → faults_in first ≡ spec.first_in (filter (spec.is_in name.now) (map violation_in violations.now))) }
{
    if faulty.contains(name.as_str()) {
        first_in(alloc, name, violations)
    } else {
        Ok(None)
    }
}

// The first of those in the module of this name.
fn first_in(alloc: Global, name: &Text, violations: &[Violation]) -> Result<Option<Fault>, Memory>
    ensures { IfOk result (λ first. faults_in first ≡ spec.first_in (filter (spec.is_in name.now) (map violation_in violations.now))) }
{
    let mut first = None;
    let mut left = violations.len();
    while left > 0 {
        left -= 1;
        first = with_earlier(alloc, name, &violations[left], first)?;
    }
    Ok(first)
}

// The earlier of a fault, where it stands in the module of this name, and the first of those behind it.
fn with_earlier(
    alloc: Global,
    name: &Text,
    violation: &Violation,
    behind: Option<Fault>,
) -> Result<Option<Fault>, Memory>
    ensures { IfOk result (λ first. faults_in first ≡ (if spec.is_in name.now (violation_in violation.now) then spec.earlier_of (Some (spec.fault_there (violation_in violation.now))) (faults_in behind) else faults_in behind)) }
{
    if !is_in(name, violation) {
        return Ok(behind);
    }
    let here = fault_there(alloc, violation)?;
    Ok(earlier_of(Some(here), behind))
}

fn fault_there(alloc: Global, violation: &Violation) -> Result<Fault, Memory>
    ensures { IfOk result (λ fault. fault_in fault ≡ spec.fault_there (violation_in violation.now)) }
{
    Ok(Fault {
        code: violation.code,
        path: violation.place.path.copy(alloc)?,
    })
}

// Whether a fault stands in the module of this name.
fn is_in(name: &Text, violation: &Violation) -> bool
    ensures { result ≡ spec.is_in name.now (violation_in violation.now) }
{
    match &violation.place.module {
        None => false,
        Some(other) => other.same(name),
    }
}
