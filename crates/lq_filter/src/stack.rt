ghost use Rattle.std.specs.Prelude.{◌≡◌, ◌⊎◌, Bool, ◌+◌, ◌-◌, ◌^◌, ◌<◌, ◌≤◌, ◌++◌, ◌∷◌, [], drop};
ghost use Rattle.std.specs.Prelude.{filter, length, IsOkAnd, OnErr, OnOk};
ghost use Rattle.lq_filter.specs.Linked.{AreLinkedTrees, headers_of_nodes, truths_before};
ghost use Rattle.lq_filter.specs.Prefixes.{AreTrees, Trees};
ghost use Rattle.lq_filter.specs.Trees.{has_pattern, height, pattern_count};
ghost use Rattle.lq_filter.specs.declared.header.Header.TheVariants as header;
ghost use Rattle.lq_filter.specs.declared.read.Test.{Test};

use crate::filter::Filter;
use crate::header::{Header, Join};
use crate::node::Node;
use crate::read::Test;
use lq_records::Memory;
use std::alloc::{AllocError, Global};
use std::marker::Model;

/// The headers of a filter, line by line. Contracts see it as the list of its headers, in the order
/// of their lines.
#[derive(Drop)]
pub struct Stack {
    nodes: Vec<Node>,
    height: usize,
}

impl Model for Stack {
    ghost use Rattle.std.specs.Prelude.{List};
    ghost use Rattle.lq_filter.specs.Linked.{AreStacked, headers_of_nodes};
    ghost use Rattle.lq_filter.specs.declared.header.Header.{Header};

    ghost Value = { List Header };

    ghost view = { λ stack. headers_of_nodes stack.nodes.items };

    ghost invariant = { λ stack. AreStacked stack.nodes.items stack.height };
}

/// Why a header isn't added.
#[derive(Drop)]
pub enum StackErr {
    /// It wants more filters than stand, or none.
    TooShort,
    /// Memory ran out.
    Memory,
}

impl From<AllocError> for StackErr {
    ghost use Rattle.std.specs.Prelude.{◌≡◌};
    ghost use Rattle.lq_filter.specs.declared.stack.StackErr.TheVariants.{Memory};

    ghost from_gives = { λ _ error. error ≡ Memory };

    fn from(_: AllocError) -> StackErr {
        StackErr::Memory
    }
}

impl Stack {
    /// A stack without a header. It takes no memory.
    pub fn new(alloc: Global) -> Self
        ensures { result ≡ [] }
    {
        Stack {
            nodes: Vec::new(alloc),
            height: 0,
        }
    }

    /// Adds a test. The only error is out of memory, and then the stack stays as it was.
    pub fn push(&mut self, t: Test) -> Result<(), Memory>
        ensures ok { OnOk result (self.new ≡ self.old ++ header.Test t ∷ []) }
        ensures err { OnErr result (self.new ≡ self.old) }
    {
        add(&mut self.nodes, Header::Test(t), 1)?;
        self.height += 1;
        Ok(())
    }

    /// Joins the last `n` filters: where `or`, one of them is enough, else all have to hold.
    /// `TooShort` exactly where `n` is 0 or above the number of filters that stand. On each error
    /// the stack stays as it was.
    pub fn join(&mut self, n: u64, or: bool) -> Result<(), StackErr>
        ensures ok { OnOk result (self.new
            ≡ self.old ++ header.Join (record { count = n; any = or }) ∷ []) }
        ensures enough { OnOk result ((0 < n) × (n ≤ height self.old)) }
        ensures short { result ≡ Err StackErr.TooShort → (n ≡ 0) ⊎ (height self.old < n) }
        ensures err { OnErr result (self.new ≡ self.old) }
    {
        if n == 0 {
            return Err(StackErr::TooShort);
        }
        if n > self.height as u64 {
            return Err(StackErr::TooShort);
        }
        let count = n as usize;
        let size = self.nodes.len() - start_of(&self.nodes, count) + 1;
        add(&mut self.nodes, Header::Join(Join { count, any: or }), size)?;
        self.height = self.height - count + 1;
        Ok(())
    }

    /// Makes the last filter its opposite. `TooShort` exactly where none stands. On each error the
    /// stack stays as it was.
    pub fn negate(&mut self) -> Result<(), StackErr>
        ensures ok { OnOk result (self.new ≡ self.old ++ header.Negate ∷ []) }
        ensures enough { OnOk result (0 < height self.old) }
        ensures short { result ≡ Err StackErr.TooShort → height self.old ≡ 0 }
        ensures err { OnErr result (self.new ≡ self.old) }
    {
        if self.height == 0 {
            return Err(StackErr::TooShort);
        }
        let size = self.nodes.len() - start_of(&self.nodes, 1) + 1;
        add(&mut self.nodes, Header::Negate, size)?;
        Ok(())
    }

    /// Adds the headers of another stack, whose trees then stand after those of this one. The only
    /// error is out of memory, and then the stack stays as it was.
    pub fn append(&mut self, later: Stack) -> Result<(), Memory>
        ensures ok { OnOk result (self.new ≡ self.old ++ later) }
        ensures trees { OnOk result (height self.new ≡ height self.old + height later) }
        ensures err { OnErr result (self.new ≡ self.old) }
    {
        add_all(&mut self.nodes, later.nodes)?;
        self.height += later.height;
        Ok(())
    }

    /// How many patterns its tests look for.
    pub fn pattern_count(&self) -> usize
        ensures { result ≡ pattern_count self.now }
    {
        patterns_of(&self.nodes)
    }

    /// The filter whose headers these are. The list that holds them becomes the filter's, so it
    /// takes no memory, and there is no error.
    pub fn finish(self) -> Result<Filter, Memory>
        ensures same { IsOkAnd result (λ filter. filter ≡ self) }
        // The headers, read from the last one back, are prefix expressions.
        ensures trees { (trees : Trees) × AreTrees self trees }
    {
        Ok(Filter::new(self.nodes))
    }
}

/// How many patterns the tests look for.
fn patterns_of(nodes: &[Node]) -> usize
    ensures { result ≡ length (filter (λ node. has_pattern node.header) nodes.now) }
{
    nodes.iter().filter(|node| node.has_pattern()).count()
}

/// Adds a header after the others, with the size of its tree.
fn add(nodes: &mut Vec<Node>, header: Header, size: usize) -> Result<(), Memory>
    ensures ok { OnOk result (nodes.new.items
        ≡ nodes.old.items ++ record { header = header; size = size } ∷ []) }
    ensures fits { OnOk result (length nodes.new.items < 2 ^ 64) }
    ensures err { OnErr result (nodes.new.items ≡ nodes.old.items) }
{
    nodes.push(Node { header, size })?;
    Ok(())
}

/// Adds the headers of other trees after the others.
fn add_all(nodes: &mut Vec<Node>, later: Vec<Node>) -> Result<(), Memory>
    ensures ok { OnOk result (nodes.new.items ≡ nodes.old.items ++ later.items) }
    ensures fits { OnOk result (length nodes.new.items < 2 ^ 64) }
    ensures err { OnErr result (nodes.new.items ≡ nodes.old.items) }
{
    let mut later = later;
    nodes.append(&mut later)?;
    Ok(())
}

/// The place where the last so many trees begin.
fn start_of(nodes: &[Node], count: usize) -> usize
    requires linked { AreLinkedTrees nodes.now }
    requires enough { count ≤ height (headers_of_nodes nodes.now) }
    ensures within { result ≤ length nodes.now }
    ensures earlier { (truth : Test → Bool) →
        drop count (truths_before truth nodes.now (length nodes.now))
        ≡ truths_before truth nodes.now result }
{
    let mut start = nodes.len();
    for _ in 0..count {
        start -= nodes[start - 1].size();
    }
    start
}
