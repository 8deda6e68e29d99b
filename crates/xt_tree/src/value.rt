// Values of expressions and of variables.
ghost use Rattle.std.specs.Prelude.{◌≡◌};
ghost use Rattle.spec_meaning.specs.Stream.{holes};
ghost use Rattle.xt_tree.specs.StreamView.{stream_of};

use crate::{Items, NodeRef};
use std::marker::Model;
use std::rc::Rc;
use xt_base::Num;
use xt_text::Text;

/// A value: one of XPath's four types, or what the content of a variable makes.
#[derive(Drop)]
pub enum Value {
    /// A number.
    Number(Num),
    /// A text.
    Text(Text),
    /// Whether something holds.
    Boolean(bool),
    /// Nodes of the source document.
    Nodes(Vec<NodeRef>),
    /// A result tree fragment.
    Fragment(Fragment),
}

/// A result tree fragment (XSLT 1.0, section 11.1): a shared stream without holes. Contracts see the
/// plain stream.
#[derive(Drop)]
pub struct Fragment {
    items: Rc<Items>,
}

impl Model for Fragment {
    ghost use Rattle.std.specs.Prelude.{◌≡◌};
    ghost use Rattle.spec_meaning.specs.Stream.{Stream, holes};
    ghost use Rattle.xt_tree.specs.StreamCode.{stream_code};
    ghost use Rattle.xt_tree.specs.StreamView.{stream_of};

    ghost Value = { Stream };

    ghost coded = { stream_code };

    ghost view = { λ f. stream_of f.items.value };

    ghost invariant = { λ f. holes (stream_of f.items.value) ≡ 0 };
}

impl Fragment {
    /// The fragment of a stream without holes. Takes no memory.
    pub fn new(items: Rc<Items>) -> Fragment
        requires { holes (stream_of items.value) ≡ 0 }
        ensures { result ≡ stream_of items.value }
    {
        Fragment { items }
    }

    /// Its stream, which is shared.
    pub fn items(&self) -> &Rc<Items>
        ensures stream { stream_of result.now.value ≡ self.now }
        ensures whole { holes self.now ≡ 0 }
    {
        &self.items
    }
}
