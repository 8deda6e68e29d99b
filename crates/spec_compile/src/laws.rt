// Laws of what modules say and of the stylesheet that they are, which hold of the definitions alone.
ghost use Rattle.std.specs.Prelude.{◌≡◌, ℕ, true, List, Some, Result};
ghost use Rattle.spec_document.specs.Forest.{Plain};
ghost use Rattle.spec_stylesheet.specs.Sheet.{Sheet};
ghost use Rattle.spec_structure.specs.Structure.{Fault};
ghost use Rattle.spec_structure.specs.Modules.{Modules, is_among};
ghost use Rattle.spec_compile.specs.Reading.{Reading, Reads};
ghost use Rattle.spec_compile.specs.Unit.{TopLevel};
ghost use Rattle.spec_compile.specs.Sheet.{IsSheet, Refusal};

use spec_expression::one_answer;
use spec_static::{one_pattern, one_template};
use spec_structure::modules_have_one_reading_order;

/// Modules are one stylesheet at most, or have one static refusal: no two outcomes are both that of the same modules.
pub fn one_sheet()
    ensures { (modules : Modules) (main : List ℕ) (r s : Result Sheet Refusal) → IsSheet modules main r → IsSheet modules main s → r ≡ s }
{
    one_answer();
    one_pattern();
    one_template();
    modules_have_one_reading_order();
}

/// A reading of what a module says does not lack a value. That a text is an expression, a pattern or a value template, or is none, is not
/// decided here, so no value is given: it cannot be that there is none.
pub fn no_want_of_reading()
    ensures { (reading : Reading (Result (List TopLevel) Fault)) → ¬ (¬ ((says : Result (List TopLevel) Fault) × Reads reading says)) }
{}

/// Modules do not lack a stylesheet or a static refusal, where they are finitely many, so where there are names among which each name of a
/// module is, and the principal one is there. Which of the two they come to is not decided here: it cannot be that there is neither.
pub fn no_want_of_sheet()
    ensures { (modules : Modules) (names : List (List ℕ)) (main : List ℕ) (tree : Plain) → ((name : List ℕ) (its : Plain) → modules name ≡ Some its → is_among name names ≡ true) → modules main ≡ Some tree → ¬ (¬ ((r : Result Sheet Refusal) × IsSheet modules main r)) }
{}
