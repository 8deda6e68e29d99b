// Default priorities (XSLT 1.0, section 5.5).
ghost use Rattle.std.specs.Prelude.{◌≡◌};
ghost use Rattle.spec_static.specs.PatternGrammar as grammar;
ghost use Rattle.xt_syntax.specs.View.{step_of, test_of};
ghost use Rattle.xt_syntax.specs.PartView.{pattern_step_of, alternative_of};

use spec_stylesheet::Separator;
use xt_syntax::{Alternative, PatternStep, Start, Step, Test};

/// The priority of whatever is no lone test, in millionths.
const HALF: i64 = 500_000;

/// The priority of a lone test, in millionths.
fn test_priority(test: &Test) -> i64
    ensures { result ≡ grammar.test_priority (test_of test.now) }
{
    match test {
        Test::Named(_) | Test::Instruction(_) => 0,
        Test::InNamespace(_) => -250_000,
        Test::AnyName | Test::OfType(_) => -500_000,
    }
}

/// The priority of a lone step, in millionths.
fn step_priority(step: &Step) -> i64
    ensures { result ≡ grammar.step_priority (step_of step.now) }
{
    if step.predicates.is_empty() {
        return test_priority(&step.test);
    }
    HALF
}

/// The priority of a lone step behind its separator, in millionths.
fn alone_priority(step: &PatternStep) -> i64
    ensures { result ≡ grammar.alone_priority step.now.separator (step_of step.now.step) }
{
    match step.separator {
        Separator::Child => step_priority(&step.step),
        Separator::Descendant => HALF,
    }
}

/// The default priority of an alternative (XSLT 1.0, section 5.5), in millionths: 0 of a name or a processing
/// instruction with its target, -250000 of all names of a namespace, -500000 of any other lone test, and
/// 500000 of whatever has more than that.
pub fn priority(alternative: &Alternative) -> i64
    ensures { result ≡ grammar.default_priority (alternative_of alternative.now) }
{
    match &alternative.start {
        Start::Anywhere => match alternative.steps.as_slice() {
            [step] => alone_priority(step),
            _ => HALF,
        },
        Start::Root | Start::Id(_) | Start::Key(_, _) => HALF,
    }
}
