// What questions name, in short, so that many of them can be told at once not to be marked.
ghost use Rattle.std.specs.Prelude.{◌≡◌, ℕ, true, false};
ghost use Rattle.std.specs.List.{All};
ghost use Rattle.spec_node.specs.declared.node_ref.NodeRef.{NodeRef as Node};
ghost use Rattle.xt_questions.specs.View.{question_of};
ghost use Rattle.xt_touch.specs.Named.{AreCovered, Covers, CoversNode, CoversStep, is_within};

use crate::source::is_itself;
use spec_document::Axis;
use xt_questions::Question;
use xt_tree::NodeRef;

/// From a least number of a node up to a greatest; none where the least is more.
#[derive(Clone, Copy, Debug, PartialEq, Eq)]
pub struct Bounds {
    pub lowest: u64,
    pub highest: u64,
}

impl Bounds {
    /// No number.
    pub fn nothing() -> Bounds
        ensures { (number : ℕ) → is_within result number ≡ false }
    {
        Bounds {
            lowest: u64::MAX,
            highest: 0,
        }
    }

    /// These with one more.
    pub fn with(self, number: u64) -> Bounds
        ensures number { is_within result number ≡ true }
        ensures before { (other : ℕ) → is_within self other ≡ true → is_within result other ≡ true }
    {
        Bounds {
            lowest: self.lowest.min(number),
            highest: self.highest.max(number),
        }
    }

    /// These and those.
    pub fn and(self, other: Bounds) -> Bounds
        ensures these { (number : ℕ) → is_within self number ≡ true → is_within result number ≡ true }
        ensures those { (number : ℕ) → is_within other number ≡ true → is_within result number ≡ true }
    {
        Bounds {
            lowest: self.lowest.min(other.lowest),
            highest: self.highest.max(other.highest),
        }
    }

    /// Whether the number lies within.
    pub fn has(self, number: u64) -> bool
        ensures { result ≡ is_within self number }
    {
        self.lowest <= number && number <= self.highest
    }

    /// Whether some number may lie within both.
    pub fn meets(self, other: Bounds) -> bool
        ensures { result ≡ false → (number : ℕ) → is_within self number ≡ true → is_within other number ≡ false }
    {
        self.lowest <= other.highest && other.lowest <= self.highest
    }
}

/// What some questions name: bounds of the numbers of nodes, and of which kinds some of them are.
#[derive(Clone, Copy, Debug, PartialEq, Eq)]
pub struct Named {
    /// Of all nodes.
    pub all: Bounds,
    /// Of those whose children, attributes or siblings are asked for, and of attributes.
    pub near: Bounds,
    /// Of those of which all below them is asked for.
    pub inside: Bounds,
    /// Whether one of them may be marked whatever nodes it names: for a key, for a place, for what precedes or follows.
    pub anywhere: bool,
    /// Whether one of them asks which rule is chosen.
    pub chooses: bool,
    /// Whether one of them asks for a parameter.
    pub external: bool,
}

impl Named {
    /// What no question names.
    pub fn nothing() -> Named
        ensures nodes { (node : Node) → CoversNode result node → ⊥ }
        ensures anywhere { result.anywhere ≡ false }
        ensures chooses { result.chooses ≡ false }
        ensures external { result.external ≡ false }
    {
        Named {
            all: Bounds::nothing(),
            near: Bounds::nothing(),
            inside: Bounds::nothing(),
            anywhere: false,
            chooses: false,
            external: false,
        }
    }

    /// What these and those name.
    pub fn and(self, other: Named) -> Named
        ensures these { AreCovered self result }
        ensures those { AreCovered other result }
    {
        Named {
            all: self.all.and(other.all),
            near: self.near.and(other.near),
            inside: self.inside.and(other.inside),
            anywhere: self.anywhere || other.anywhere,
            chooses: self.chooses || other.chooses,
            external: self.external || other.external,
        }
    }

    /// What these and a question for this node name.
    pub fn with_node(self, node: NodeRef) -> Named
        ensures node { CoversNode result node }
        ensures before { AreCovered self result }
    {
        let number = node.node.number;
        let mut named = self;
        named.all = named.all.with(number);
        if is_itself(node.part) {
            return named;
        }
        named.near_to(number)
    }

    // What is asked near the node of this number, too.
    fn near_to(self, number: u64) -> Named
        ensures number { is_within result.near number ≡ true }
        ensures all { result.all ≡ self.all }
        ensures before { AreCovered self result }
    {
        let mut named = self;
        named.near = named.near.with(number);
        named
    }

    // What is asked of all below the node of this number, too.
    fn inside_of(self, number: u64) -> Named
        ensures number { is_within result.inside number ≡ true }
        ensures before { AreCovered self result }
    {
        let mut named = self;
        named.inside = named.inside.with(number);
        named
    }

    fn with_nodes(self, nodes: &[NodeRef]) -> Named
        ensures nodes { All (CoversNode result) nodes.now }
        ensures before { AreCovered self result }
    {
        let mut named = self;
        for node in nodes {
            named = named.with_node(*node);
        }
        named
    }

    fn with_near(self, node: NodeRef) -> Named
        ensures node { CoversNode result node }
        ensures near { is_within result.near node.node.number ≡ true }
        ensures before { AreCovered self result }
    {
        self.with_node(node).near_to(node.node.number)
    }

    fn with_inside(self, node: NodeRef) -> Named
        ensures node { CoversNode result node }
        ensures inside { is_within result.inside node.node.number ≡ true }
        ensures before { AreCovered self result }
    {
        self.with_node(node).inside_of(node.node.number)
    }

    fn with_anywhere(self) -> Named
        ensures anywhere { result.anywhere ≡ true }
        ensures before { AreCovered self result }
    {
        let mut named = self;
        named.anywhere = true;
        named
    }

    fn with_choice(self) -> Named
        ensures chooses { result.chooses ≡ true }
        ensures before { AreCovered self result }
    {
        let mut named = self;
        named.chooses = true;
        named
    }

    fn with_external(self) -> Named
        ensures external { result.external ≡ true }
        ensures before { AreCovered self result }
    {
        let mut named = self;
        named.external = true;
        named
    }

    /// What these and this question name.
    pub fn with(self, question: &Question) -> Named
        ensures question { Covers result (question_of question.now) }
        ensures before { AreCovered self result }
    {
        match question {
            Question::Step(node, axis, _) => self.with_step(*node, *axis),
            Question::Text(node) => self.with_inside(*node),
            Question::Name(node) => self.with_node(*node),
            Question::Place(node) => self.with_node(*node).with_anywhere(),
            Question::Order(nodes) => self.with_nodes(nodes.as_slice()),
            Question::Key(_, _) => self.with_anywhere(),
            Question::Choice(node, _, _) => self.with_node(*node).with_choice(),
            Question::Copy(node) => self.with_inside(*node),
            Question::Unit(_) => self,
            Question::External(_) => self.with_external(),
        }
    }

    fn with_step(self, node: NodeRef, axis: Axis) -> Named
        ensures node { CoversNode result node }
        ensures step { CoversStep result axis node.node.number }
        ensures before { AreCovered self result }
    {
        match axis {
            Axis::Child => self.with_near(node),
            Axis::Attribute => self.with_near(node),
            Axis::FollowingSibling => self.with_near(node),
            Axis::PrecedingSibling => self.with_near(node),
            Axis::Descendant => self.with_inside(node),
            Axis::DescendantOrSelf => self.with_inside(node),
            Axis::Following => self.with_node(node).with_anywhere(),
            Axis::Preceding => self.with_node(node).with_anywhere(),
            Axis::Itself => self.with_node(node),
            Axis::Parent => self.with_node(node),
            Axis::Ancestor => self.with_node(node),
            Axis::AncestorOrSelf => self.with_node(node),
            Axis::Namespace => self.with_node(node),
        }
    }
}
