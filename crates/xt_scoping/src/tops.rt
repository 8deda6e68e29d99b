// What is declared at the top, and the violations of elements there.
ghost use Rattle.std.specs.Prelude.{◌≡◌, ◌++◌, map, IfOk, OnOk};
ghost use Rattle.std.specs.List.{flat_map};
ghost use Rattle.spec_compile.specs.Scoping as spec;
ghost use Rattle.spec_compile.specs.Scoping.{set_in};
ghost use Rattle.xt_syntax.specs.PartView.{site_of};
ghost use Rattle.xt_top_level.specs.View.{declaration_in, top_level_in};
ghost use Rattle.xt_scoping.specs.Told.{IsTold, itself_at, top_at, top_with};
ghost use Rattle.xt_scoping.specs.View.{found_in, ranked_in};

use crate::graph::{Graph, graph_of, sets_of};
use crate::known::{Known, known_of};
use crate::names::Names;
use crate::outline::{report_siblings, report_uses};
use crate::reach::leads_back;
use crate::report::report_if;
use crate::violation::{Ranked, Violation};
use spec_expression::StaticCode;
use std::alloc::Global;
use xt_syntax::Site;
use xt_text::Memory;
use xt_top_level::{Declaration, TopLevel};

/// What is declared at the top of a stylesheet.
#[derive(Drop)]
pub(crate) struct Tops<'a> {
    pub(crate) known: Known<'a>,
    pub(crate) graph: Graph<'a>,
    /// How many attribute sets are declared: no shortest way from one to another has more steps.
    pub(crate) rounds: usize,
}

/// What these elements declare.
pub(crate) fn tops_of<'a>(alloc: Global, ranked: &'a [Ranked]) -> Result<Tops<'a>, Memory>
    ensures { IfOk result (λ tops. IsTold tops (spec.tops_of (map ranked_in ranked.now))) }
{
    let sets = sets_of(alloc, ranked)?;
    let rounds = sets.len();
    let graph = graph_of(alloc, sets.as_slice())?;
    let known = known_of(alloc, ranked)?;
    Ok(Tops {
        known,
        graph,
        rounds,
    })
}

/// Adds the violations of an element at the top and of those below it.
pub(crate) fn report_top_level<'a>(
    alloc: Global,
    tops: &Tops<'a>,
    top_level: &'a TopLevel,
    found: &mut Vec<Violation>,
) -> Result<(), Memory>
    ensures { OnOk result (found_in found.new.items ≡ found_in found.old.items ++ top_at tops.now (top_level_in top_level.now)) }
{
    let mut locals = Names::new(alloc);
    report_below(alloc, tops, &mut locals, top_level, found)
}

// The same where these local variables are in scope.
fn report_below<'a>(
    alloc: Global,
    tops: &Tops<'a>,
    locals: &mut Names<'a>,
    top_level: &'a TopLevel,
    found: &mut Vec<Violation>,
) -> Result<(), Memory>
    ensures { OnOk result (found_in found.new.items ≡ found_in found.old.items ++ top_with tops.now locals.old (top_level_in top_level.now)) }
{
    report_uses(
        alloc,
        &tops.known,
        locals,
        &top_level.site,
        &top_level.uses,
        found,
    )?;
    report_itself(alloc, tops, &top_level.declaration, &top_level.site, found)?;
    let below = top_level.outline.elements.as_slice();
    report_siblings(alloc, &tops.known, locals, below, found)?;
    Ok(())
}

// Adds a violation where an attribute set uses itself.
fn report_itself<'a>(
    alloc: Global,
    tops: &Tops<'a>,
    declaration: &'a Declaration,
    site: &Site,
    found: &mut Vec<Violation>,
) -> Result<(), Memory>
    ensures { OnOk result (found_in found.new.items ≡ found_in found.old.items ++ flat_map (itself_at tops.now (site_of site.now)) (set_in (declaration_in declaration.now))) }
{
    match declaration {
        Declaration::Set(set) => {
            let leads = leads_back(alloc, &tops.graph, tops.rounds, set)?;
            report_if(alloc, leads, StaticCode::BadAttributeSet, site, found)
        }
        Declaration::Template(_) => Ok(()),
        Declaration::Global(_) => Ok(()),
        Declaration::Key(_) => Ok(()),
        Declaration::SpaceRule(_) => Ok(()),
        Declaration::Output(_) => Ok(()),
        Declaration::Alias(_) => Ok(()),
    }
}
