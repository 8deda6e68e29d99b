// Laws of stylesheets whose items are instantiations.
ghost use Rattle.std.specs.Prelude.{◌≡◌, Bool, true, List, Ok};
ghost use Rattle.std.specs.List.{list_any};
ghost use Rattle.spec_document.specs.Name.{Expanded, same_name};
ghost use Rattle.spec_document.specs.Forest.{Document, Plain};
ghost use Rattle.spec_stylesheet.specs.Instruction.{Instrs};
ghost use Rattle.spec_stylesheet.specs.Sheet.{Sheet};
ghost use Rattle.spec_meaning.specs.Question.{Question, Answer};
ghost use Rattle.spec_run.specs.Meaning.{Setting, run_of};
ghost use Rattle.spec_run.specs.Documents.{Parameters};
ghost use Rattle.spec_run.specs.Outcome.{outcome_of};
ghost use Rattle.spec_run.specs.World.{Node, setting_of};
ghost use Rattle.spec_items.specs.Mentioned.{free_in};
ghost use Rattle.spec_items.specs.Liftable.{with_items};
ghost use Rattle.spec_items.specs.Fits.{Lifts, AllGlobals, with_answers};

/// What is free in a content is in scope.
pub fn free_variables_are_in_scope()
    ensures { (scope : List Expanded) (content : Instrs) (name : Expanded) →
        list_any (same_name name) (free_in scope content) ≡ true → list_any (same_name name) scope ≡ true }
{}

/// A run in which each item of an xsl:for-each is an instantiation of its own comes to the same, where the answers of
/// the stylesheet with lifted contents fit those of the stylesheet.
pub fn items_change_no_run()
    ensures { (setting : Setting Node) (other : Question Node → Answer Node) (is_old : Node → Bool) →
        Lifts setting other (λ element. is_old element ≡ true)
        → AllGlobals (λ element. is_old element ≡ true) setting.globals →
        run_of setting ≡ run_of (with_answers setting other) }
{}

/// A stylesheet in which the content of each xsl:for-each stands in a template of its own, where that may be, comes to
/// the same on each document, with the same content, the same messages and the same refusal.
pub fn items_change_no_result()
    ensures { (sheet : Sheet) (parameters : Parameters) (document : Document (Unit {0})) →
        run_of (setting_of (with_items sheet) parameters document) ≡ run_of (setting_of sheet parameters document) }
{}

/// So does its outcome, with the texts of the source that it strips and its output method.
pub fn items_change_no_outcome()
    ensures { (sheet : Sheet) (parameters : Parameters) (source : Plain) →
        outcome_of parameters source (Ok (with_items sheet)) ≡ outcome_of parameters source (Ok sheet) }
{}
