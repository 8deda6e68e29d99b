// Copies of patterns.
ghost use Rattle.std.specs.Prelude.{◌≡◌, IfOk};
ghost use Rattle.spec_stylesheet.specs.Pattern as trees;
ghost use Rattle.xt_syntax.specs.PartView.{pattern_of, alternative_of, pattern_step_of};

use crate::copies::expr::copy_step;
use crate::copies::{Copied, copy_all};
use std::alloc::Global;
use xt_names::copy_name_if;
use xt_syntax::{Alternative, Pattern, PatternStep, Start};
use xt_text::Memory;

impl Copied for PatternStep {
    ghost Seen = { trees.PatternStep };

    ghost seen = { pattern_step_of };

    fn copied(&self, alloc: Global) -> Result<PatternStep, Memory> {
        let step = copy_step(alloc, &self.step)?;
        Ok(PatternStep {
            separator: self.separator,
            step,
        })
    }
}

impl Copied for Alternative {
    ghost Seen = { trees.Alternative };

    ghost seen = { alternative_of };

    fn copied(&self, alloc: Global) -> Result<Alternative, Memory> {
        let start = copy_start(alloc, &self.start)?;
        let steps = copy_all(alloc, self.steps.as_slice())?;
        Ok(Alternative { start, steps })
    }
}

impl Copied for Pattern {
    ghost Seen = { trees.Pattern };

    ghost seen = { pattern_of };

    fn copied(&self, alloc: Global) -> Result<Pattern, Memory> {
        let alternatives = copy_all(alloc, self.alternatives.as_slice())?;
        Ok(Pattern { alternatives })
    }
}

fn copy_start(alloc: Global, start: &Start) -> Result<Start, Memory>
    ensures { IfOk result (λ copy. copy ≡ start.now) }
{
    match start {
        Start::Anywhere => Ok(Start::Anywhere),
        Start::Root => Ok(Start::Root),
        Start::Id(id) => Ok(Start::Id(id.copy(alloc)?)),
        Start::Key(name, value) => {
            let name = copy_name_if(alloc, name)?;
            Ok(Start::Key(name, value.copy(alloc)?))
        }
    }
}
