// Copies of literal result elements, without their contents.
ghost use Rattle.std.specs.Prelude.{◌≡◌, IfOk};
ghost use Rattle.spec_stylesheet.specs.Instruction as trees;
ghost use Rattle.xt_syntax.specs.PartView.{literal_attribute_of, literal_tag_of};

use crate::copies::name::copy_names;
use crate::copies::template::copy_avt;
use crate::copies::{Copied, copy_all};
use std::alloc::Global;
use xt_names::copy_name;
use xt_syntax::{LiteralAttribute, LiteralTag};
use xt_text::Memory;

impl Copied for LiteralAttribute {
    ghost Seen = { trees.LiteralAttribute };

    ghost seen = { literal_attribute_of };

    fn copied(&self, alloc: Global) -> Result<LiteralAttribute, Memory> {
        let prefix = self.prefix.copy(alloc)?;
        let name = copy_name(alloc, &self.name)?;
        let value = copy_avt(alloc, &self.value)?;
        Ok(LiteralAttribute {
            prefix,
            name,
            value,
        })
    }
}

/// The same literal result element.
pub(crate) fn copy_literal_tag(alloc: Global, tag: &LiteralTag) -> Result<LiteralTag, Memory>
    ensures { IfOk result (λ copy. literal_tag_of copy ≡ literal_tag_of tag.now) }
{
    let prefix = tag.prefix.copy(alloc)?;
    let name = copy_name(alloc, &tag.name)?;
    let namespaces = copy_all(alloc, tag.namespaces.as_slice())?;
    let sets = copy_names(alloc, tag.sets.as_slice())?;
    let attributes = copy_all(alloc, tag.attributes.as_slice())?;
    Ok(LiteralTag {
        prefix,
        name,
        namespaces,
        sets,
        attributes,
    })
}
