// Laws of the outcomes of documents.
ghost use Rattle.std.specs.Prelude.{◌≡◌, ℕ, true, List, Some};
ghost use Rattle.spec_document.specs.Forest.{Plain};
ghost use Rattle.spec_structure.specs.Modules.{is_among};
ghost use Rattle.spec_run.specs.Documents.{Documents};
ghost use Rattle.spec_run.specs.Outcome.{IsOutcome, Outcome};

use spec_compile::{no_want_of_sheet, one_sheet};

/// Documents have one outcome.
pub fn one_outcome()
    ensures { (documents : Documents) (one other : Outcome) → IsOutcome documents one → IsOutcome documents other → one ≡ other }
{
    one_sheet();
}

/// Documents do not lack an outcome, where the modules are finitely many, so where there are names among which each
/// name of a module is. That a text is an expression, a pattern or a value template, or is none, is not decided here,
/// so no outcome is given: it cannot be that there is none.
pub fn no_want_of_outcome()
    ensures { (documents : Documents) (names : List (List ℕ)) → ((name : List ℕ) (its : Plain) → documents.modules name ≡ Some its → is_among name names ≡ true) → ¬ (¬ ((outcome : Outcome) × IsOutcome documents outcome)) }
{
    no_want_of_sheet();
}
