// Laws of matching and of the choice of template rules, which hold of the definitions alone.
ghost use Rattle.std.specs.Prelude.{◌≡◌, ℕ, Bool, true, false, List, [], ◌∷◌, Option, Some, Ok, IsSomeAnd, slice_get};
ghost use Rattle.spec_document.specs.Name.{Expanded};
ghost use Rattle.spec_document.specs.Scope.{Scope};
ghost use Rattle.spec_document.specs.Forest.{Document};
ghost use Rattle.spec_document.specs.Place.{Place};
ghost use Rattle.spec_document.specs.Order.{is_same_place};
ghost use Rattle.spec_document.specs.declared.axis.Axis.TheVariants.{Parent, AncestorOrSelf};
ghost use Rattle.spec_expression.specs.Syntax.{Expr, Exprs, Step};
ghost use Rattle.spec_stylesheet.specs.Pattern.{Alternative, Pattern};
ghost use Rattle.spec_stylesheet.specs.Sheet.{Rule, Sheet};
ghost use Rattle.spec_static.specs.PatternGrammar.{ParsesPattern, is_pattern_axis};
ghost use Rattle.spec_structure.specs.Modules.{Modules};
ghost use Rattle.spec_compile.specs.Walk.{variables, has_in_pattern};
ghost use Rattle.spec_compile.specs.Sheet.{IsSheet};
ghost use Rattle.spec_meaning.specs.Context.{Context};
ghost use Rattle.spec_meaning.specs.Question.{Question, Answer, Candidates, Name};
ghost use Rattle.spec_meaning.specs.Program.{Supply, Gives, outcome_of};
ghost use Rattle.spec_meaning.specs.Value.{Nodes};
ghost use Rattle.spec_meaning.specs.Meaning.{meaning};
ghost use Rattle.spec_meaning.specs.Truth.{truth_at_places};
ghost use Rattle.spec_transform.specs.Choice.{chosen, IsRanked, CanBeChosen, IsGreatest};
ghost use Rattle.spec_transform.specs.Match.{is_kept, passes, passes_predicates, matches};
ghost use Rattle.spec_transform.specs.Position.{reads_no_position, read_no_position};
ghost use Rattle.spec_matching.specs.Asked.{TellsApart, is_among, nodes_on, led_to, passes_among};
ghost use Rattle.spec_matching.specs.Asked.{AreAnswered, AllIsAtHand};
ghost use Rattle.spec_matching.specs.AsExpression.{Reads, standing_at, nodes_given};
ghost use Rattle.spec_matching.specs.Tree.{answering_keys, is_there, IsTree};
ghost use Rattle.spec_matching.specs.Given.{IsOneOf, AreAlternatives, are_along, IsGivenFromAbove};

/// The rules of each stylesheet that modules are stand ranked, the greatest first: by import precedence, then by
/// priority, then the last in the stylesheet (XSLT 1.0, section 5.5).
pub fn compiled_rules_are_ranked()
    ensures { (modules : Modules) (main : List ℕ) (sheet : Sheet) →
        IsSheet modules main (Ok sheet) → IsRanked sheet.rules.rules }
{}

/// So of the rules of each stylesheet the one that is chosen is a candidate whose pattern matches, and no other such
/// one counts for more.
pub fn the_chosen_rule_is_the_greatest()
    ensures { (modules : Modules) (main : List ℕ) (sheet : Sheet) (same : ℕ → ℕ → Bool) (c : Rule → Context ℕ) (n : ℕ)
        (mode : Option Expanded) (candidates : Candidates) (ask : Question ℕ → Answer ℕ) (supply : Supply ℕ)
        (number : ℕ) →
        let rules = sheet.rules.rules in
        IsSheet modules main (Ok sheet) →
        outcome_of ask supply (chosen same c n mode candidates rules) ≡ Gives (Some number) →
        IsSomeAnd (slice_get rules number) (IsGreatest (CanBeChosen same c n mode candidates ask supply) rules) }
{}

/// A predicate that reads no position asks the same of a node, and says the same of it, at each position among any
/// number of nodes (XPath 1.0, sections 2.4 and 4.1).
pub fn what_reads_no_position_says_the_same_anywhere()
    ensures { (predicate : Expr) (c : Context ℕ) (n : ℕ) (size position other_size other_position : ℕ) →
        reads_no_position predicate ≡ true →
        is_kept predicate c size position n ≡ is_kept predicate c other_size other_position n }
{}

/// So a step whose predicates read no position says of a node alone what it says of it among all nodes that it leads to
/// from the node's parent, where the node is one of these. Where something of the run is lacking that a predicate needs
/// at another node, nothing is said among all; where nothing is lacking, as where all of the run is at hand, both end
/// alike. In a tree it is one of these, and of one parent, where it passes the step's test.
pub fn steps_that_read_no_position_may_be_asked_alone()
    ensures said { (same : ℕ → ℕ → Bool) (c : Context ℕ) (s : Step) (n parent : ℕ) (ask : Question ℕ → Answer ℕ)
        (supply : Supply ℕ) (b : Bool) →
        TellsApart same → read_no_position s.predicates ≡ true →
        nodes_on ask Parent n ≡ parent ∷ [] → is_among same n (led_to ask s parent) ≡ true →
        outcome_of ask supply (passes_among same c s n) ≡ Gives b →
        outcome_of ask supply (passes_predicates same c s n) ≡ Gives b }
    ensures alike { (same : ℕ → ℕ → Bool) (c : Context ℕ) (s : Step) (n parent : ℕ) (ask : Question ℕ → Answer ℕ)
        (supply : Supply ℕ) →
        TellsApart same → read_no_position s.predicates ≡ true →
        nodes_on ask Parent n ≡ parent ∷ [] → is_among same n (led_to ask s parent) ≡ true →
        AreAnswered ask supply c s.predicates →
        outcome_of ask supply (passes_predicates same c s n) ≡ outcome_of ask supply (passes_among same c s n) }
    ensures in_a_tree { (same : ℕ → ℕ → Bool) (c : Context ℕ) (s : Step) (n : ℕ) (ask : Question ℕ → Answer ℕ)
        (supply : Supply ℕ) →
        IsTree same ask → is_pattern_axis s.axis ≡ true → passes s.axis s.test (ask (Name n)) ≡ true →
        read_no_position s.predicates ≡ true → AreAnswered ask supply c s.predicates →
        outcome_of ask supply (passes_predicates same c s n) ≡ outcome_of ask supply (passes_among same c s n) }
    ensures answered { (ask : Question ℕ → Answer ℕ) (supply : Supply ℕ) (c : Context ℕ) (predicates : Exprs) →
        AllIsAtHand supply → AreAnswered ask supply c predicates }
{}

/// A node matches a pattern exactly where one of its ancestors-or-self, as context, gives a node-set with it, by the
/// meaning of the pattern as an expression (XSLT 1.0, section 5.2), where a predicate that is refused of a node is
/// false for it, and a key() that is refused gives no node. It holds of the answers of each tree, and of patterns whose
/// predicates need nothing that is lacking.
pub fn a_node_matches_where_a_node_above_gives_it()
    ensures given { (same : Place → Place → Bool) (ask : Question Place → Answer Place) (supply : Supply Place)
        (c : Context Place) (pattern : Pattern) (n : Place) →
        IsTree same ask → is_there ask n ≡ true → AreAlternatives ask supply c pattern.alternatives →
        outcome_of ask supply (matches same c pattern n) ≡ Gives true → IsGivenFromAbove same ask supply c pattern n }
    ensures matched { (same : Place → Place → Bool) (ask : Question Place → Answer Place) (supply : Supply Place)
        (c : Context Place) (pattern : Pattern) (n : Place) →
        IsTree same ask → is_there ask n ≡ true → AreAlternatives ask supply c pattern.alternatives →
        IsGivenFromAbove same ask supply c pattern n → outcome_of ask supply (matches same c pattern n) ≡ Gives true }
{}

/// The true answers of a document are those of a tree, whatever is answered for keys.
pub fn documents_are_trees()
    ensures { (document : Document (Unit {0})) (keys : Expanded → List ℕ → Answer Place) →
        IsTree is_same_place (answering_keys keys (truth_at_places document)) }
{}

/// What a pattern is read as, with what is refused in it forgiven, gives what its expression gives, wherever the
/// expression is not refused and gives nodes. So what one of the expressions of a pattern gives from a node above
/// matches.
pub fn a_pattern_gives_what_its_expression_gives()
    ensures gives { (c : Context Place) (alternative : Alternative) (expression : Expr) (above : Place)
        (ask : Question Place → Answer Place) (supply : Supply Place) (nodes : List Place) →
        Reads c.scope alternative expression →
        outcome_of ask supply (meaning expression (standing_at c above)) ≡ Gives (Nodes nodes) →
        outcome_of ask supply (nodes_given c alternative above) ≡ Gives nodes }
    ensures matched { (same : Place → Place → Bool) (ask : Question Place → Answer Place) (supply : Supply Place)
        (c : Context Place) (pattern : Pattern) (n : Place) (alternative : Alternative) (expression : Expr)
        (above : Place) (nodes : List Place) →
        IsTree same ask → is_there ask n ≡ true → AreAlternatives ask supply c pattern.alternatives →
        IsOneOf alternative pattern.alternatives → Reads c.scope alternative expression →
        is_among same above (nodes_on ask AncestorOrSelf n) ≡ true →
        outcome_of ask supply (meaning expression (standing_at c above)) ≡ Gives (Nodes nodes) →
        is_among same n nodes ≡ true →
        outcome_of ask supply (matches same c pattern n) ≡ Gives true }
{}

/// The steps of each pattern that is read are along the axes of children and of attributes, and a pattern without
/// variables, as each that a template matches is, needs nothing of the run: so the law above holds of it, whatever is
/// at hand.
pub fn patterns_without_variables_need_nothing()
    ensures steps { (scope : Scope) (text : List ℕ) (pattern : Pattern) →
        ParsesPattern scope text (Ok pattern) → are_along pattern ≡ true }
    ensures needs { (ask : Question Place → Answer Place) (supply : Supply Place) (c : Context Place)
        (pattern : Pattern) →
        are_along pattern ≡ true → has_in_pattern variables pattern ≡ false →
        AreAlternatives ask supply c pattern.alternatives }
{}
