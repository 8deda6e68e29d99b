// Modules that are a literal result element (XSLT 1.0, section 2.3).
ghost use Rattle.std.specs.Prelude.{◌≡◌, ◌∷◌, [], IfOk};
ghost use Rattle.spec_compile.specs.Content as content;
ghost use Rattle.spec_compile.specs.Unit as spec;
ghost use Rattle.xt_syntax.specs.PartView.{pattern_of};
ghost use Rattle.xt_syntax.specs.PartView as places;
ghost use Rattle.xt_content.specs.Sibling.{alone};
ghost use Rattle.xt_content.specs.View.{IsAnswer, around_in, below_in, children_in, outline_in, uses_in};
ghost use Rattle.xt_tree.specs.View.{tree_of};
ghost use Rattle.xt_top_level.specs.View.{declaration_in, top_levels_of};

use crate::path::top;
use crate::top_level::{Declaration, RuleTemplate, TopLevel};
use std::alloc::Global;
use std::rc::Rc;
use xt_content::{
    Around, Below, Child, ContentFault, Outline, Uses, content_at, content_in, site_of,
};
use xt_structure::Inside;
use xt_syntax::{Alternative, Pattern, Site, Start, Template};
use xt_text::{Memory, Path, Text};
use xt_tree::Node;

/// What the module of this name says whose document element is content and has this position.
pub(crate) fn simplified_at(
    alloc: Global,
    name: &Text,
    position: u64,
    node: &Node,
) -> Result<Vec<TopLevel>, ContentFault>
    ensures { IsAnswer top_levels_of (spec.simplified_of name.now position (alone (tree_of node.now))) result }
{
    let around = at_top(alloc, name)?;
    let path = Path::new(alloc);
    let below = content_at(alloc, &around, &path, position, node)?;
    let top_levels = simplified(alloc, &around, position, below)?;
    Ok(top_levels)
}

// What is in force around the document element.
fn at_top(alloc: Global, name: &Text) -> Result<Around, Memory>
    ensures { IfOk result (λ around. around_in around ≡ spec.at_top name.now) }
{
    Ok(Around {
        module_name: name.copy(alloc)?,
        inside: Inside::root(alloc)?,
        excluded: Vec::new(alloc),
    })
}

fn simplified(
    alloc: Global,
    around: &Around,
    position: u64,
    below: Below,
) -> Result<Vec<TopLevel>, Memory>
    ensures { IfOk result (λ ts. top_levels_of ts ≡ spec.simplified (content.site_of (around_in around.now) (position ∷ [])) (below_in below)) }
{
    let path = top(alloc, position)?;
    let site = site_of(alloc, around, &path)?;
    let Below { children, outline } = below;
    let Ok(declaration) = template_for_the_root(alloc, children) else {
        drop(site);
        drop(outline);
        return Err(Memory);
    };
    alone(alloc, site, declaration, outline)
}

// An element at the top that names nothing itself, and is the only one.
fn alone(
    alloc: Global,
    site: Site,
    declaration: Declaration,
    outline: Outline,
) -> Result<Vec<TopLevel>, Memory>
    ensures { IfOk result (λ ts. top_levels_of ts ≡ record { site = places.site_of site; declaration = declaration_in declaration; uses = spec.no_uses; outline = outline_in outline } ∷ []) }
{
    let mut top_levels = Vec::new(alloc);
    top_levels.push(TopLevel {
        site,
        declaration,
        uses: no_uses(alloc),
        outline,
    })?;
    Ok(top_levels)
}

fn no_uses(alloc: Global) -> Uses
    ensures { uses_in result ≡ spec.no_uses }
{
    Uses {
        variables: Vec::new(alloc),
        templates: Vec::new(alloc),
        sets: Vec::new(alloc),
    }
}

// The template for the root with this content, which has no place of its own.
fn template_for_the_root(alloc: Global, children: Vec<Child>) -> Result<Declaration, Memory>
    ensures { IfOk result (λ d. declaration_in d ≡ spec.simplified_template (children_in children.items)) }
{
    let pattern = for_the_root(alloc)?;
    let parameters = Rc::new(alloc, Vec::new(alloc))?;
    let content = content_in(alloc, children)?;
    let template = Template {
        name: None,
        parameters,
        content,
    };
    Ok(Declaration::Template(RuleTemplate {
        template,
        pattern: Some(pattern),
        priority: None,
        mode: None,
    }))
}

fn for_the_root(alloc: Global) -> Result<Pattern, Memory>
    ensures { IfOk result (λ p. pattern_of p ≡ spec.for_the_root) }
{
    let mut alternatives = Vec::new(alloc);
    alternatives.push(Alternative {
        start: Start::Root,
        steps: Vec::new(alloc),
    })?;
    Ok(Pattern { alternatives })
}
