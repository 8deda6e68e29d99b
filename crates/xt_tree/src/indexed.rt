// Contents of nodes, with where their declarations stand.
ghost use Rattle.std.specs.Prelude.{◌≡◌, IfOk};

use crate::Content;
use crate::declarations::declarations_of;
use std::alloc::Global;
use std::marker::Model;
use xt_text::Memory;

/// What a node is, with the places of the declarations among its attributes, so that an attribute is found by its
/// number at a cost of the declarations alone. Contracts see the content.
#[derive(Drop)]
pub struct Indexed {
    pub(crate) content: Content,
    // From 0, in their order.
    pub(crate) declarations: Vec<u64>,
}

impl Model for Indexed {
    ghost use Rattle.std.specs.Prelude.{◌≡◌};
    ghost use Rattle.xt_tree.specs.declared.node.Content.{Content};
    ghost use Rattle.xt_tree.specs.Indexed.{declarations_in, written_in};

    ghost Value = { Content };

    ghost view = { λ x. x.content };

    ghost invariant = { λ x. x.declarations.items ≡ declarations_in 0 (written_in x.content) };
}

impl Indexed {
    /// The content, with the places of its declarations.
    pub fn new(alloc: Global, content: Content) -> Result<Indexed, Memory>
        ensures { IfOk result (λ indexed. indexed ≡ content) }
    {
        let declarations = declarations_of(alloc, &content)?;
        Ok(Indexed {
            content,
            declarations,
        })
    }

    /// The content.
    pub fn content(&self) -> &Content
        ensures { result.now ≡ self.now }
    {
        &self.content
    }
}
