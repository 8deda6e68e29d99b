// Parts that are read one after another, also behind one that is refused.
ghost use Rattle.std.specs.Prelude.{◌≡◌, [], ◌++◌, ◌∷◌, OnOk, Ok, Option, None, Some};
ghost use Rattle.spec_compile.specs.Reading.{joined, lesser};
ghost use Rattle.xt_attributes.specs.Gathering.{gathered_in, seen};

use spec_expression::StaticCode;
use std::alloc::Global;
use xt_text::Memory;

/// The parts that were read so far, or the least code that stands at one of them.
#[derive(Drop)]
pub struct Gathered<T: Drop> {
    pub parts: Vec<T>,
    pub least: Option<StaticCode>,
}

impl<T: Drop> Gathered<T> {
    /// No parts. Takes no memory.
    pub fn new(alloc: Global) -> Gathered<T>
        ensures { gathered_in result ≡ Ok [] }
    {
        Gathered {
            parts: Vec::new(alloc),
            least: None,
        }
    }

    /// Adds a part, or the code that stands where it is none. Want of memory alone is an error.
    pub fn push(&mut self, part: Result<T, StaticCode>) -> Result<(), Memory>
        ensures { OnOk result (gathered_in self.new ≡ joined (λ parts last. parts ++ last ∷ []) (gathered_in self.old) part) }
    {
        match part {
            Ok(part) => self.parts.push(part)?,
            Err(code) => self.least = Some(least_of(self.least, code)),
        }
        Ok(())
    }

    /// The parts, or the least code.
    pub fn finish(self) -> Result<Vec<T>, StaticCode>
        ensures { seen (λ parts. parts.items) result ≡ gathered_in self }
    {
        match self.least {
            None => Ok(self.parts),
            Some(code) => Err(code),
        }
    }
}

/// The lesser of a code that may stand before another, and that.
fn least_of(before: Option<StaticCode>, code: StaticCode) -> StaticCode
    ensures { result ≡ elim before [ None ↦ code | Some other ↦ lesser other code ] }
{
    match before {
        None => code,
        Some(other) => lesser_of(other, code),
    }
}

fn lesser_of(one: StaticCode, other: StaticCode) -> StaticCode
    ensures { result ≡ lesser one other }
{
    if one.number() <= other.number() {
        one
    } else {
        other
    }
}
