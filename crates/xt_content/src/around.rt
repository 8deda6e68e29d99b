// What is in force around a node, and from an element to what is inside it.
ghost use Rattle.std.specs.Prelude.{◌≡◌, IfOk, false, map};
ghost use Rattle.std.specs.Option.{option_copied};
ghost use Rattle.spec_compile.specs.Content as spec;
ghost use Rattle.spec_structure.specs.Inside as scopes;
ghost use Rattle.xt_syntax.specs.PartView as trees;
ghost use Rattle.xt_content.specs.Sibling.{exclude_name};
ghost use Rattle.xt_content.specs.View.{around_in};
ghost use Rattle.xt_structure.specs.View.{in_force};
ghost use Rattle.xt_tree.specs.View.{written_of};

use std::alloc::Global;
use xt_names::{Scope, XSLT_URI};
use xt_structure::{Inside, copies, inside_of, push_uris, value_of};
use xt_syntax::{Place, Site};
use xt_text::{Memory, Path, Text};
use xt_tree::Written;

/// What is in force around a node.
#[derive(Drop)]
pub struct Around {
    pub module_name: Text,
    /// What is in force inside the element that holds it.
    pub inside: Inside,
    /// The URIs of the namespaces that literal result elements do not copy (XSLT 1.0, section 7.1.1).
    pub excluded: Vec<Text>,
}

/// What is in force inside an element of this name and these attributes, which stands where `outer` is in force.
/// Want of memory alone is an error.
pub fn around_of(
    alloc: Global,
    outer: &Around,
    name: &Text,
    attributes: &[Written],
) -> Result<Around, Memory>
    ensures { IfOk result (λ around. around_in around ≡ spec.around_of (around_in outer.now) name.now (map written_of attributes.now)) }
{
    let module_name = outer.module_name.copy(alloc)?;
    let mut excluded = copies(alloc, outer.excluded.as_slice())?;
    let inside = inside_of(alloc, &outer.inside, name.as_str(), attributes)?;
    let list = exclude_list(&inside.scope, false, attributes);
    let Ok(_) = push_uris(alloc, &mut excluded, &inside.scope, list) else {
        drop(inside);
        return Err(Memory);
    };
    Ok(Around {
        module_name,
        inside,
        excluded,
    })
}

/// The element at this path, where `around` is in force inside it. Want of memory alone is an error.
pub fn site_of(alloc: Global, around: &Around, path: &Path) -> Result<Site, Memory>
    ensures { IfOk result (λ site. trees.site_of site ≡ spec.site_of (around_in around.now) path.now) }
{
    let module_name = around.module_name.copy(alloc)?;
    let path = path.copy(alloc)?;
    let scope = around.inside.scope.copy()?;
    Ok(Site {
        place: Place {
            module: Some(module_name),
            path,
        },
        scope,
    })
}

/// The URIs of the namespaces that an element excludes by its `exclude-result-prefixes`, for itself and what is below
/// it (XSLT 1.0, section 7.1.1). An element of XSLT has it without a prefix, another in XSLT's namespace. Want of
/// memory alone is an error.
pub fn excluded_by(
    alloc: Global,
    inside: &Inside,
    is_xslt: bool,
    attributes: &[Written],
) -> Result<Vec<Text>, Memory>
    ensures { IfOk result (λ uris. uris.items ≡ spec.excluded_by (in_force inside.now) is_xslt (map written_of attributes.now)) }
{
    let mut uris = Vec::new(alloc);
    push_uris(
        alloc,
        &mut uris,
        &inside.scope,
        exclude_list(&inside.scope, is_xslt, attributes),
    )?;
    Ok(uris)
}

// The list of the prefixes of excluded namespaces.
fn exclude_list<'a>(scope: &Scope, is_xslt: bool, attributes: &'a [Written]) -> Option<&'a Text>
    ensures { option_copied result ≡ scopes.value_of scope.now (exclude_name is_xslt) (map written_of attributes.now) }
{
    if is_xslt {
        return value_of(scope, "", "exclude-result-prefixes", attributes);
    }
    value_of(scope, XSLT_URI, "exclude-result-prefixes", attributes)
}
