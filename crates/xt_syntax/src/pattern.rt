// Patterns (XSLT 1.0, section 5.2).
ghost use Rattle.std.specs.Prelude.{◌≡◌};
ghost use Rattle.std.specs.Bool.{Decides};
ghost use Rattle.spec_stylesheet.specs.Pattern as trees;
ghost use Rattle.xt_syntax.specs.PartView.{pattern_of, alternative_of, pattern_step_of};

use crate::alike::{Alike, all_alike};
use crate::expr::Step;
use crate::names::same_name;
use spec_stylesheet::Separator;
use xt_names::Expanded;
use xt_text::Text;

/// A pattern: its alternatives, which `|` parts, in their order (XSLT 1.0, section 5.2).
#[derive(Drop)]
pub struct Pattern {
    pub alternatives: Vec<Alternative>,
}

/// One alternative of a pattern: where it starts, and the steps from there. It has a step, or
/// starts elsewhere than anywhere.
#[derive(Drop)]
pub struct Alternative {
    pub start: Start,
    pub steps: Vec<PatternStep>,
}

/// Where an alternative of a pattern starts (XSLT 1.0, section 5.2).
pub type Start = spec_stylesheet::Start<Text, Expanded>;

/// A step of a pattern, of the child or the attribute axis, with the separator before it.
#[derive(Drop)]
pub struct PatternStep {
    pub separator: Separator,
    pub step: Step,
}

/// Whether both are the same start.
fn same_start(one: &Start, other: &Start) -> bool
    ensures { Decides result (one.now ≡ other.now) }
{
    match (one, other) {
        (Start::Anywhere, Start::Anywhere) => true,
        (Start::Root, Start::Root) => true,
        (Start::Id(id), Start::Id(other)) => id.same(other),
        (Start::Key(name, value), Start::Key(other_name, other)) => {
            same_name(name, other_name) && value.same(other)
        }
        _ => false,
    }
}

impl PatternStep {
    /// Whether both are the same step after the same separator. Takes no memory.
    pub fn same(&self, other: &PatternStep) -> bool
        ensures { Decides result (pattern_step_of self.now ≡ pattern_step_of other.now) }
    {
        self.separator == other.separator && self.step.same(&other.step)
    }
}

impl Alike for PatternStep {
    ghost Seen = { trees.PatternStep };

    ghost seen = { pattern_step_of };

    fn alike(&self, other: &PatternStep) -> bool {
        self.same(other)
    }
}

impl Alternative {
    /// Whether both are the same tree. Takes no memory.
    pub fn same(&self, other: &Alternative) -> bool
        ensures { Decides result (alternative_of self.now ≡ alternative_of other.now) }
    {
        same_start(&self.start, &other.start)
            && all_alike(self.steps.as_slice(), other.steps.as_slice())
    }
}

impl Alike for Alternative {
    ghost Seen = { trees.Alternative };

    ghost seen = { alternative_of };

    fn alike(&self, other: &Alternative) -> bool {
        self.same(other)
    }
}

impl Pattern {
    /// Whether both are the same tree. Takes no memory.
    pub fn same(&self, other: &Pattern) -> bool
        ensures { Decides result (pattern_of self.now ≡ pattern_of other.now) }
    {
        all_alike(self.alternatives.as_slice(), other.alternatives.as_slice())
    }
}

impl Alike for Pattern {
    ghost Seen = { trees.Pattern };

    ghost seen = { pattern_of };

    fn alike(&self, other: &Pattern) -> bool {
        self.same(other)
    }
}
