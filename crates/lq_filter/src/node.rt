use crate::header::Header;
use std::marker::Model;

/// A header, and how many headers the tree that ends with it has.
#[derive(Drop)]
pub(crate) struct Node {
    pub(crate) header: Header,
    pub(crate) size: usize,
}

impl Model for Node {
    ghost use Rattle.lq_filter.specs.Linked.{SizedHeader};

    ghost Value = { SizedHeader };

    ghost view = { λ node. record { header = node.header; size = node.size } };
}

impl Node {
    ghost use Rattle.std.specs.Prelude.{◌≡◌};
    ghost use Rattle.lq_filter.specs.Trees.{has_pattern};

    /// Whether the header is a test that looks for a pattern.
    pub(crate) fn has_pattern(&self) -> bool
        ensures { result ≡ has_pattern self.now.header }
    {
        match &self.header {
            Header::Test(test) => test.has_pattern(),
            Header::Join(_) => false,
            Header::Negate => false,
        }
    }

    /// How many headers the tree has.
    pub(crate) fn size(&self) -> usize
        ensures { result ≡ self.now.size }
    {
        self.size
    }
}
