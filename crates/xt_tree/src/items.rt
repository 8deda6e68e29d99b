// Streams: what instructions write, item by item.
ghost use Rattle.std.specs.Prelude.{◌≡◌, nat_lt, map, length, IfOk, OnOk, OnErr};
ghost use Rattle.spec_meaning.specs.Stream as stream;
ghost use Rattle.xt_tree.specs.declared.items.Items.{out-Items};
ghost use Rattle.xt_tree.specs.StreamView.{single_of, stream_of, streams_of};

use crate::filling::{filled, has_hole};
use std::alloc::Global;
use std::rc::Rc;
use xt_names::Namespace;
use xt_text::{Memory, Text};

/// A stream: what instructions write, in its order. Where one of its items is a hole, another stream is
/// to stand. Contracts see the plain stream, in which a shared part is its items.
#[cycle(items)]
#[derive(Drop)]
pub struct Items {
    list: Vec<Item>,
}

/// An item of a stream.
#[cycle(items)]
#[derive(Drop)]
pub enum Item {
    /// An element. The namespaces are the namespace nodes that are copied to it.
    Element {
        /// The name as it is written.
        name: Text,
        /// The URI of the name, empty where it is in no namespace.
        uri: Text,
        namespaces: Vec<Namespace>,
        content: Rc<Items>,
    },
    /// What was to stand in an element whose name is no good: the content alone is written, without the
    /// attributes that it begins with.
    Nameless {
        content: Rc<Items>,
    },
    /// An attribute, for the element whose content it begins. Its content makes its value.
    Attribute {
        /// The name as it is written.
        name: Text,
        /// The URI of the name, empty where it is in no namespace.
        uri: Text,
        content: Rc<Items>,
    },
    /// A namespace node.
    Namespace(Namespace),
    /// A text.
    Text(Text),
    /// A comment. Its content makes its text.
    Comment {
        content: Rc<Items>,
    },
    /// A processing instruction. Its content makes its text.
    Instruction {
        target: Text,
        content: Rc<Items>,
    },
    /// A message, which is no part of the result. Its content makes its text.
    Message {
        content: Rc<Items>,
    },
    /// A shared stream, whose items stand here.
    Part(Rc<Items>),
    /// The place of a stream that is not known yet.
    Hole,
}

impl Items {
    /// The empty stream. Takes no memory.
    pub fn new(alloc: Global) -> Items
        ensures { stream_of result ≡ stream.Ended }
    {
        Items {
            list: Vec::new(alloc),
        }
    }

    /// Adds an item at the end. After want of memory the stream is as before.
    pub fn push(&mut self, item: Item) -> Result<(), Memory>
        ensures ok { OnOk result (stream_of self.new ≡ stream.followed (stream_of self.old) (single_of item)) }
        ensures err { OnErr result (stream_of self.new ≡ stream_of self.old) }
    {
        self.list.push(item)?;
        Ok(())
    }

    /// The items in their order.
    pub fn list(&self) -> &[Item]
        ensures items { result.now ≡ (out-Items self.now).list.items }
        ensures stream { stream.all_followed (map single_of result.now) ≡ stream_of self.now }
    {
        self.list.as_slice()
    }

    /// Whether the stream has holes. Takes no memory.
    pub fn has_hole(&self) -> bool
        ensures { result ≡ nat_lt 0 (stream.holes (stream_of self.now)) }
    {
        has_hole(self)
    }

    /// The stream with the parts in place of its holes, in order. The parts are shared, and so is what has
    /// no holes; all else is copied.
    pub fn fill(&self, alloc: Global, parts: &[Rc<Items>]) -> Result<Rc<Items>, Memory>
        requires { stream.holes (stream_of self.now) ≡ length parts.now }
        ensures { IfOk result (λ whole. stream_of whole.value ≡ stream.filled (stream_of self.now) (streams_of parts.now)) }
    {
        let mut next = 0;
        filled(alloc, self, parts, &mut next)
    }
}
