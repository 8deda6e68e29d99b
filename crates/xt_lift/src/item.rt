// The templates of contents.
ghost use Rattle.std.specs.Prelude.{◌≡◌, IfOk, map};
ghost use Rattle.spec_stylesheet.specs.Instruction.{instrs};
ghost use Rattle.xt_lift.specs.Left as spec;
ghost use Rattle.xt_syntax.specs.InstrView.{instr_of};
ghost use Rattle.xt_syntax.specs.PartView.{site_of};
ghost use Rattle.xt_syntax.specs.SheetView.{unit_of};

use crate::bindings::parameters_for;
use crate::copies::copy_site;
use crate::item_name::item_name;
use std::alloc::Global;
use std::rc::Rc;
use xt_names::Expanded;
use xt_syntax::{Declared, Instr, Site, Template, Unit};
use xt_text::Memory;

/// The same content, shared.
pub(crate) fn share_content(content: &Rc<Vec<Instr>>) -> Result<Rc<Vec<Instr>>, Memory>
    ensures { IfOk result (λ c. c.value ≡ content.now.value) }
{
    Ok(content.clone()?)
}

/// The template of the xsl:for-each at this element, with these parameters, and with what is left of the content as its
/// own.
pub(crate) fn item_unit(
    alloc: Global,
    precedence: u64,
    site: &Site,
    free: &[Expanded],
    content: Rc<Vec<Instr>>,
) -> Result<Unit, Memory>
    ensures { IfOk result (λ unit. unit_of unit ≡ spec.unit_with precedence (site_of site.now) free.now (instrs (map instr_of content.value.items))) }
{
    let parameters = parameters_for(alloc, site, free)?;
    let name = item_name(alloc, &site.place)?;
    let site = copy_site(alloc, site)?;
    let template = Template {
        name: Some(name),
        parameters,
        content,
    };
    Ok(Unit {
        site,
        precedence,
        declared: Declared::Template(template),
    })
}
