// The violations of a stylesheet.
ghost use Rattle.std.specs.Prelude.{◌≡◌, [], IfOk, map};
ghost use Rattle.spec_compile.specs.Scoping as spec;
ghost use Rattle.xt_scoping.specs.Told.{IsTold};
ghost use Rattle.xt_scoping.specs.View.{ranked_in, violation_in};

use crate::declared::Declared;
use crate::doubles::Earlier;
use crate::tops::{Tops, report_top_level, tops_of};
use spec_expression::StaticCode;
use std::alloc::Global;
use xt_base::Place;
use xt_text::Memory;
use xt_top_level::TopLevel;

/// An element at the top of a stylesheet, with the precedence of the stylesheet that it stands in (XSLT 1.0, section
/// 2.6.2).
#[derive(Drop)]
pub struct Ranked {
    /// Higher for what counts more.
    pub precedence: u64,
    /// The least precedence of what its stylesheet imports.
    pub imported: u64,
    pub top_level: TopLevel,
}

/// A fault between the elements of a stylesheet, and the element at which it stands.
#[derive(Drop)]
pub struct Violation {
    pub code: StaticCode,
    pub place: Place,
}

/// The faults between the elements of a stylesheet, whose elements at the top stand in the order of the stylesheet:
/// S17 at an element that names a variable which is not in scope; S18 at one that binds a local variable over another;
/// S19 and S20 at a global variable or a named template whose name an earlier one of the same precedence has; S21 at
/// a call of a template that is not there; S22 at an element that names an attribute set which is not there, and at an
/// attribute set that uses itself.
pub fn violations_of(alloc: Global, ranked: &[Ranked]) -> Result<Vec<Violation>, Memory>
    ensures { IfOk result (λ vs. map violation_in vs.items ≡ spec.violations_of (map ranked_in ranked.now)) }
{
    let tops = tops_of(alloc, ranked)?;
    let mut earlier = Earlier {
        globals: Declared::new(alloc),
        templates: Declared::new(alloc),
    };
    violations_with(alloc, ranked, &tops, &mut earlier)
}

// The same where this is declared at the top, and nothing before the first of these elements.
fn violations_with<'a>(
    alloc: Global,
    ranked: &'a [Ranked],
    tops: &Tops<'a>,
    earlier: &mut Earlier<'a>,
) -> Result<Vec<Violation>, Memory>
    requires told { IsTold tops.now (spec.tops_of (map ranked_in ranked.now)) }
    requires globals { earlier.now.globals ≡ [] }
    requires templates { earlier.now.templates ≡ [] }
    ensures { IfOk result (λ vs. map violation_in vs.items ≡ spec.violations_of (map ranked_in ranked.now)) }
{
    let mut found = Vec::new(alloc);
    for element in ranked {
        earlier.declare(alloc, element, &mut found)?;
        report_top_level(alloc, tops, &element.top_level, &mut found)?;
    }
    Ok(found)
}
