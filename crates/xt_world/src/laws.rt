// What does not matter to a run, and what does not to the choice of a template rule.
ghost use Rattle.std.specs.Prelude.{◌≡◌, ℕ, true, Option};
ghost use Rattle.spec_document.specs.Forest.{Document};
ghost use Rattle.spec_document.specs.Name.{Expanded};
ghost use Rattle.spec_stylesheet.specs.Place.{Place};
ghost use Rattle.spec_stylesheet.specs.Sheet.{Sheet};
ghost use Rattle.spec_meaning.specs.Naming.{unlabelled};
ghost use Rattle.spec_meaning.specs.Question.{Candidates, Choice};
ghost use Rattle.spec_run.specs.Documents.{Parameters};
ghost use Rattle.spec_run.specs.Meaning.{run_of};
ghost use Rattle.spec_run.specs.World.{setting_of};
ghost use Rattle.spec_node.specs.declared.node_ref.NodeRef.{NodeRef};
ghost use Rattle.spec_touch.specs.Plain.{are_plain_in};
ghost use Rattle.xt_syntax.specs.SheetView.{rules_of};
ghost use Rattle.xt_tree.specs.Numbers.{IsNumbered};
ghost use Rattle.xt_world.specs.Numbered.{IsNaming, setting_by_numbers};
ghost use Rattle.xt_world.specs.View.{truth_in};
ghost use Rattle.xt_world.specs.declared.stylesheet.Stylesheet.{Stylesheet};

/// A whole run comes to the same, with the same content, the same messages and the same refusal, where nodes are
/// named by numbers, any that tell the units of the stylesheet apart, as where they are named by their places in a
/// plain document: no number of a node bears on it.
pub fn same_run()
    ensures { (numbers : Place → ℕ) (sheet : Sheet) (parameters : Parameters) (document : Document ℕ) → IsNaming numbers sheet.units → IsNumbered document →
        run_of (setting_by_numbers numbers sheet parameters document) ≡ run_of (setting_of sheet parameters (unlabelled document)) }
{}

/// Two stylesheets that have the same rules, and whose elements are called the same, choose the same rule for each node of
/// a source, where the patterns of all rules of the mode have no predicates and no key(): such a pattern reads nothing of
/// the units, and asks the source's tree alone.
pub fn same_plain_choices()
    ensures { (one other : Stylesheet) → rules_of one.rules ≡ rules_of other.rules → one.elements.items ≡ other.elements.items
        → (parameters : Parameters) (document : Document ℕ) (node : NodeRef) (mode : Option Expanded) (candidates : Candidates)
        → are_plain_in mode (rules_of one.rules).rules ≡ true
        → truth_in one parameters document (Choice node mode candidates) ≡ truth_in other parameters document (Choice node mode candidates) }
{}
