// What sinks become.
ghost use Rattle.std.specs.Prelude.{◌≡◌, []};
ghost use Rattle.spec_run.specs.Plan.{AsAttribute, wrapped};
ghost use Rattle.xt_tree.specs.StreamView.{single_of, stream_of};
ghost use Rattle.xt_engine.specs.View.{wrapping_of};

use std::alloc::Global;
use std::rc::Rc;
use xt_engine::Wrapping;
use xt_text::Text;
use xt_tree::{Item, Items};

/// The item that a sink becomes. Takes no memory.
pub fn wrapped(wrapping: Wrapping, content: Rc<Items>) -> Item
    ensures { single_of result ≡ wrapped (wrapping_of wrapping) (stream_of content.value) }
{
    match wrapping {
        Wrapping::Element {
            name,
            uri,
            namespaces,
        } => Item::Element {
            name,
            uri,
            namespaces,
            content,
        },
        Wrapping::Nameless => Item::Nameless { content },
        Wrapping::Attribute { name, uri } => Item::Attribute { name, uri, content },
        Wrapping::Comment => Item::Comment { content },
        Wrapping::Instruction(target) => Item::Instruction { target, content },
        Wrapping::Message => Item::Message { content },
    }
}

/// What a sink becomes of which messages alone count: an attribute without a name. Takes no memory.
pub fn nameless_attribute(alloc: Global) -> Wrapping
    ensures { wrapping_of result ≡ AsAttribute [] [] }
{
    Wrapping::Attribute {
        name: Text::new(alloc),
        uri: Text::new(alloc),
    }
}
