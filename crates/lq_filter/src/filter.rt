ghost use Rattle.std.specs.Prelude.{◌≡◌, ◌==◌, [], All, IfOk, length};
ghost use Rattle.lq_filter.specs.Linked.{AreLinkedTrees, headers_of_nodes};
ghost use Rattle.lq_filter.specs.Prefixes.{AreTrees, Trees, all_hold};
ghost use Rattle.lq_filter.specs.Trees.{HasColumn, holds, truth_on};

use crate::cells::Cells;
use crate::node::Node;
use crate::ready::{ReadyFilter, ready_filter};
use lq_records::{Items, Memory};
use std::alloc::Global;
use std::marker::Model;

/// Which rows are chosen. Contracts see it as the list of its headers, in the order of their lines.
#[derive(Drop)]
pub struct Filter {
    nodes: Items<Node>,
}

impl Model for Filter {
    ghost use Rattle.std.specs.Prelude.{List};
    ghost use Rattle.lq_filter.specs.Linked.{AreLinkedTrees, headers_of_nodes};
    ghost use Rattle.lq_filter.specs.declared.header.Header.{Header};

    ghost Value = { List Header };

    ghost view = { λ filter. headers_of_nodes filter.nodes };

    ghost invariant = { λ filter. AreLinkedTrees filter.nodes };
}

impl Default for Filter {
    ghost is_default = { λ filter. filter ≡ [] };

    /// The filter without a header, which chooses each row. It takes no memory.
    fn default() -> Self {
        Filter {
            nodes: Items::default(),
        }
    }
}

impl Filter {
    pub(crate) fn new(nodes: Vec<Node>) -> Self
        requires { AreLinkedTrees nodes.items }
        ensures { result ≡ headers_of_nodes nodes.items }
    {
        Filter {
            nodes: Items::from_vec(nodes),
        }
    }

    /// Whether the filter has no header, and so chooses each row.
    #[inline]
    pub fn is_everything(&self) -> bool
        ensures { result ≡ (length self.now == 0) }
    {
        self.nodes.is_empty()
    }

    /// The filter with the matchers of its patterns: what serves where many rows are tested. The
    /// only error is out of memory.
    pub fn ready(&self, alloc: Global) -> Result<ReadyFilter<'_>, Memory>
        ensures { IfOk result (λ ready. ready ≡ self.now) }
    {
        ready_filter(alloc, self.nodes.as_slice())
    }

    /// Whether a row is chosen. It makes a matcher for each pattern, and drops it. The only error
    /// is out of memory.
    pub fn holds<C: Cells>(&self, alloc: Global, cells: &C) -> Result<bool, Memory>
        requires { All (HasColumn (C.has cells.now)) self.now }
        ensures value { IfOk result
            (λ chosen. chosen ≡ holds (truth_on (C.cell cells.now)) self.now) }
        // It is chosen where all trees hold whose prefix expressions the headers are.
        ensures trees { (trees : Trees) → AreTrees self.now trees →
            IfOk result (λ chosen. chosen ≡ all_hold (truth_on (C.cell cells.now)) trees) }
    {
        self.ready(alloc)?.holds(alloc, cells)
    }
}
