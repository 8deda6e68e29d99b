// That the names of nodes do not matter.
ghost use Rattle.std.specs.Prelude.{ℕ};
ghost use Rattle.spec_document.specs.Forest.{Document};
ghost use Rattle.spec_document.specs.Place.{Place};
ghost use Rattle.spec_expression.specs.Syntax.{Expr};
ghost use Rattle.spec_meaning.specs.Context.{Context};
ghost use Rattle.spec_meaning.specs.Meaning.{meaning};
ghost use Rattle.spec_meaning.specs.Naming.{unlabelled};
ghost use Rattle.spec_meaning.specs.Program.{Supply, outcome_of, reads_of};
ghost use Rattle.spec_meaning.specs.Related.{Contexts, Each, Outcomes, ReadsAlike, SuppliesAlike, Values};
ghost use Rattle.spec_meaning.specs.Truth.{truth_at_places};
ghost use Rattle.xt_tree.specs.Numbers.{IsNumbered};
ghost use Rattle.spec_node.specs.declared.node_ref.NodeRef.{NodeRef};
ghost use Rattle.xp_axes.specs.Numbered.{NameOne, truth_at_numbers};

/// An expression means the same where nodes are named by their places in a plain document and where they are
/// named by the numbers of a numbered one: from contexts that name the same nodes it gives the same nodes, the
/// same number, text or boolean, or the same refusal, or lacks the same, and it reads the same.
pub fn same_meaning()
    ensures { (document : Document ℕ) (e : Expr) (c : Context Place) (d : Context NodeRef) (supply : Supply Place) (others : Supply NodeRef) (depth : ℕ) →
        IsNumbered document → Contexts (NameOne document) c d → SuppliesAlike (NameOne document) supply others →
        Outcomes (Values (NameOne document)) (outcome_of (truth_at_places (unlabelled document)) supply (meaning e c))
        (outcome_of (truth_at_numbers document) others (meaning e d))
        × Each (ReadsAlike (NameOne document)) (reads_of (truth_at_places (unlabelled document)) supply depth (meaning e c))
        (reads_of (truth_at_numbers document) others depth (meaning e d)) }
{}
