// Laws of the order of node-sets, which hold of the definitions alone.
ghost use Rattle.std.specs.Prelude.{◌≡◌, ℕ, Bool, List, ◌∷◌, codes};
ghost use Rattle.spec_document.specs.Name.{Expanded};
ghost use Rattle.spec_document.specs.Forest.{Document};
ghost use Rattle.spec_expression.specs.Syntax.{Expr};
ghost use Rattle.spec_stylesheet.specs.Place.{Place};
ghost use Rattle.spec_stylesheet.specs.Sheet.{Sheet};
ghost use Rattle.spec_meaning.specs.Value as value;
ghost use Rattle.spec_meaning.specs.Question as question;
ghost use Rattle.spec_meaning.specs.Question.{Question, Answer, text_in, local_in, uri_in, written_in};
ghost use Rattle.spec_meaning.specs.Program.{Supply, Gives, outcome_of};
ghost use Rattle.spec_meaning.specs.Context.{Context};
ghost use Rattle.spec_meaning.specs.Convert.{text_at, to_text, to_number};
ghost use Rattle.spec_meaning.specs.Meaning.{meaning};
ghost use Rattle.spec_run.specs.Documents.{Parameters};
ghost use Rattle.spec_run.specs.Plan.{Call};
ghost use Rattle.spec_run.specs.Content.{plan_of};
ghost use Rattle.spec_run.specs.Meaning as run;
ghost use Rattle.spec_run.specs.Meaning.{Past, referred};
ghost use Rattle.spec_run.specs.World.{Node, truth_at_places, setting_of};
ghost use Rattle.spec_order.specs.NodeSet.{AreInOrder, WorldIsInOrder, SuppliesAreInOrder, VariablesAreInOrder, precedes};
ghost use Rattle.spec_order.specs.First.{IsFirst, number_at, call_on};
ghost use Rattle.spec_order.specs.Run.{KeepsOrder, IsGivenInOrder, ArePast};

/// A node-set has its nodes in document order, each once (XPath 1.0, section 3.3): whatever expression gives it, a path,
/// a filter, a union or a call, in a world that answers in order, where the variables are in order.
pub fn node_sets_are_in_order()
    ensures { (before : Node → Node → Bool) (ask : Question Node → Answer Node) (supply : Supply Node) (expression : Expr)
        (context : Context Node) (nodes : List Node) →
        WorldIsInOrder before ask → SuppliesAreInOrder before supply → VariablesAreInOrder before context.bindings →
        outcome_of ask supply (meaning expression context) ≡ Gives (value.Nodes nodes) → AreInOrder before nodes }
{}

/// The true answers of a stylesheet, parameters and a source are in document order.
pub fn true_answers_are_in_order()
    ensures { (sheet : Sheet) (parameters : Parameters) (document : Document (Unit {0})) →
        WorldIsInOrder precedes (truth_at_places sheet parameters document) }
{}

/// Of a node-set in document order the first of the list is the first in document order, and no other node is.
pub fn the_first_of_the_list_is_the_first()
    ensures is_first { (node : Node) (nodes : List Node) → AreInOrder precedes (node ∷ nodes) → IsFirst precedes node (node ∷ nodes) }
    ensures alone { (first node : Node) (nodes : List Node) → AreInOrder precedes (node ∷ nodes) → IsFirst precedes first (node ∷ nodes) →
        first ≡ node }
{}

/// A node-set in document order is converted by the string-value of its first node in document order (XPath 1.0,
/// sections 4.2 and 4.4), wherever a text or a number is wanted.
pub fn node_sets_are_converted_by_their_first_node()
    ensures texts { (first : Node) (nodes : List Node) → AreInOrder precedes nodes → IsFirst precedes first nodes →
        to_text (value.Nodes nodes) ≡ text_at first }
    ensures numbers { (first : Node) (nodes : List Node) → AreInOrder precedes nodes → IsFirst precedes first nodes →
        to_number (value.Nodes nodes) ≡ number_at first }
{}

/// Whatever expression gives a node-set, its string is the string-value of its first node in document order (XPath 1.0,
/// section 4.2), and its names and its identifier are those of that node (XPath 1.0, section 4.1; XSLT 1.0, section
/// 12.4), by the true answers, where the variables are in order.
pub fn strings_and_names_are_of_the_first_node()
    ensures { (sheet : Sheet) (parameters : Parameters) (document : Document (Unit {0})) (supply : Supply Node)
        (expression : Expr) (context : Context Node) (nodes : List Node) (first : Node) →
        let ask = truth_at_places sheet parameters document in
        let means = λ (e : Expr). outcome_of ask supply (meaning e context) in
        SuppliesAreInOrder precedes supply → VariablesAreInOrder precedes context.bindings →
        means expression ≡ Gives (value.Nodes nodes) → IsFirst precedes first nodes →
        (means (call_on (codes "string") expression) ≡ Gives (value.Text (text_in (ask (question.Text first)))))
        × (means (call_on (codes "name") expression) ≡ Gives (value.Text (written_in (ask (question.Name first)))))
        × (means (call_on (codes "local-name") expression) ≡ Gives (value.Text (local_in (ask (question.Name first)))))
        × (means (call_on (codes "namespace-uri") expression) ≡ Gives (value.Text (uri_in (ask (question.Name first)))))
        × (means (call_on (codes "generate-id") expression) ≡ Gives (value.Text (text_in (ask (question.Place first))))) }
{}

/// What is instantiated, a template whose parameters are in order, a built-in rule, a global or an attribute set, passes
/// on node-sets in document order alone, and yields no other.
pub fn instantiations_keep_order()
    ensures { (before : Node → Node → Bool) (same : Node → Node → Bool) (call : Call Node) →
        VariablesAreInOrder before call.parameters → KeepsOrder before (plan_of same call) }
{}

/// In a run by the true answers a reference to a global gives no node-set but one in document order, wherever the run
/// has come, and however deep the reference stands.
pub fn globals_are_in_order()
    ensures { (sheet : Sheet) (parameters : Parameters) (document : Document (Unit {0})) (levels room : ℕ)
        (past : Past Node) (name : Expanded) (depth : ℕ) (place : Place) →
        let setting = setting_of sheet parameters document in
        ArePast setting levels past.values → IsGivenInOrder precedes (referred setting (run.meaning setting room) past name depth place) }
{}
