// Nodes with their keys, and how these compare.
use xt_base::Num;
use xt_text::Text;
use xt_tree::NodeRef;

/// How the keys of an xsl:sort compare (XSLT 1.0, section 10): as numbers or as texts, ascending or descending.
#[derive(Clone, Copy)]
pub struct Criterion {
    pub is_number: bool,
    pub descends: bool,
}

/// The key of a node. Those of one xsl:sort are all of one kind.
#[derive(Drop)]
pub enum KeyValue {
    Text(Text),
    Number(Num),
}

/// A node with its keys, one for each xsl:sort, the first xsl:sort first.
#[derive(Drop)]
pub struct Row {
    pub node: NodeRef,
    pub keys: Vec<KeyValue>,
}
