ghost use Rattle.std.specs.Prelude.{◌≡◌, ◌∷◌, [], ◌<◌, ◌≤◌, All, IfOk, OnOk, length, map, take};
ghost use Rattle.lq_filter.specs.Linked.{AreLinkedTrees, headers_of_nodes, truths_before};
ghost use Rattle.lq_filter.specs.Marks.{AreKept};
ghost use Rattle.lq_filter.specs.ReadyHeaders.{header_of};
ghost use Rattle.lq_filter.specs.Trees.{HasColumn, holds, is_negation, join_of, some_or_all};
ghost use Rattle.lq_filter.specs.Trees.{truth_on};
ghost use Rattle.lq_filter.specs.declared.header.Header.TheVariants as header;
ghost use Rattle.lq_filter.specs.declared.read.Test.{Test};

use crate::cells::Cells;
use crate::header::{Header, Join};
use crate::marks::{Block, LastTrees, keep_all};
use crate::node::Node;
use crate::read::Test;
use crate::ready_test::ReadyTest;
use crate::scan::Scan;
use lq_records::Memory;
use std::alloc::Global;
use std::marker::Model;

/// A header whose test is ready.
#[derive(Drop)]
pub enum ReadyHeader<'f> {
    /// `Filter`: a test.
    Test(ReadyTest<'f>),
    /// `And`, `Or`: the last filters become one.
    Join(Join),
    /// `Negate`: the last filter becomes its opposite.
    Negate,
}

/// A header made ready, and how many headers the tree that ends with it has.
#[derive(Drop)]
pub(crate) struct Step<'f> {
    header: ReadyHeader<'f>,
    size: usize,
}

impl<'f> Model for Step<'f> {
    ghost use Rattle.lq_filter.specs.Linked.{SizedHeader};
    ghost use Rattle.lq_filter.specs.ReadyHeaders.{header_of};

    ghost Value = { SizedHeader };

    ghost view = { λ step. record { header = header_of step.header; size = step.size } };
}

/// A filter with the matchers of its patterns, which serves for any number of rows. Contracts see
/// it as the filter: the list of its headers, in the order of their lines.
pub struct ReadyFilter<'f> {
    steps: Vec<Step<'f>>,
}

// Written by hand: where one is dropped a proof then meets a call, and not each of the fields.
impl Drop for ReadyFilter<'_> {
    fn drop(self) {
        let ReadyFilter { steps: _steps } = self;
    }
}

impl<'f> Model for ReadyFilter<'f> {
    ghost use Rattle.std.specs.Prelude.{List};
    ghost use Rattle.lq_filter.specs.Linked.{AreLinkedTrees, headers_of_nodes};
    ghost use Rattle.lq_filter.specs.declared.header.Header.{Header};

    ghost Value = { List Header };

    ghost view = { λ ready. headers_of_nodes ready.steps.items };

    ghost invariant = { λ ready. AreLinkedTrees ready.steps.items };
}

/// The cells of a row that is tested, and the allocator for what their values take.
#[derive(Drop)]
pub(crate) struct Row<'r, C> {
    pub(crate) alloc: Global,
    pub(crate) cells: &'r C,
}

impl ReadyFilter<'_> {
    /// Whether a row is chosen. The tests are made in the order of their lines, as far as the
    /// answer wants them. The only error is out of memory.
    pub fn holds<C: Cells>(&mut self, alloc: Global, cells: &C) -> Result<bool, Memory>
        requires { All (HasColumn (C.has cells.now)) self.old }
        ensures value { IfOk result
            (λ chosen. chosen ≡ holds (truth_on (C.cell cells.now)) self.old) }
        ensures same { self.new ≡ self.old }
    {
        let count = self.steps.len();
        let row = Row { alloc, cells };
        joined_at(&row, &mut self.steps, count, Join { count, any: false })
    }

    /// Which of the rows are chosen. Each test goes over all rows that the tests before it left
    /// open, so many rows are best given in blocks of some hundreds, which stay in the processor's
    /// cache. The only error is out of memory.
    pub fn marks<S: Scan>(
        &mut self,
        alloc: Global,
        scan: &S,
        rows: &[S::Row],
    ) -> Result<Vec<bool>, Memory>
        requires { All (λ row. All (HasColumn (S.has scan.now row)) self.old) rows.now }
        ensures marks { IfOk result (λ marks.
            marks.items ≡ map (λ row. holds (truth_on (S.cell scan.now row)) self.old) rows.now) }
        ensures same { self.new ≡ self.old }
    {
        let mut marks = vec![in alloc; true; rows.len()]?;
        let block = Block { alloc, scan, rows };
        let count = self.steps.len();
        let trees = LastTrees { end: count, count };
        keep_all(&block, &mut self.steps, trees, &mut marks)?;
        Ok(marks)
    }
}

/// The nodes of a filter made ready.
pub(crate) fn ready_filter(alloc: Global, nodes: &[Node]) -> Result<ReadyFilter<'_>, Memory>
    requires { AreLinkedTrees nodes.now }
    ensures { IfOk result (λ ready. ready ≡ headers_of_nodes nodes.now) }
{
    Ok(ReadyFilter {
        steps: steps_of(alloc, nodes)?,
    })
}

fn steps_of(alloc: Global, nodes: &[Node]) -> Result<Vec<Step<'_>>, Memory>
    ensures { IfOk result (λ steps. steps.items ≡ nodes.now) }
{
    let mut steps = Vec::with_capacity(alloc, nodes.len())?;
    for node in nodes {
        let header = ready_header(alloc, &node.header)?;
        steps.push(Step {
            header,
            size: node.size,
        })?;
    }
    Ok(steps)
}

fn ready_header(alloc: Global, header: &Header) -> Result<ReadyHeader<'_>, Memory>
    ensures { IfOk result (λ ready. header_of ready ≡ header.now) }
{
    match header {
        Header::Test(test) => Ok(ReadyHeader::Test(ReadyTest {
            column: test.column,
            check: test.check.ready(alloc)?,
        })),
        Header::Join(join) => Ok(ReadyHeader::Join(*join)),
        Header::Negate => Ok(ReadyHeader::Negate),
    }
}

/// Whether the last trees before a place, as many as the join takes, give a truth together. The
/// first of them is looked at first.
#[cycle(truth)]
fn joined_at<C: Cells>(
    row: &Row<'_, C>,
    steps: &mut [Step<'_>],
    place: usize,
    join: Join,
) -> Result<bool, Memory>
    requires linked { AreLinkedTrees steps.old }
    requires within { place ≤ length steps.old }
    requires columns { All (HasColumn (C.has row.now.cells.now)) (headers_of_nodes steps.old) }
    ensures value { IfOk result (λ truth. truth ≡ some_or_all join.any
        (take join.count (truths_before (truth_on (C.cell row.now.cells.now)) steps.old place))) }
    ensures same { steps.new ≡ steps.old }
{
    if place == 0 || join.count == 0 {
        return Ok(!join.any);
    }
    let begin = place - steps[place - 1].size();
    let earlier = Join {
        count: join.count - 1,
        any: join.any,
    };
    if joined_at(row, steps, begin, earlier)? == join.any {
        return Ok(join.any);
    }
    truth_at(row, steps, place)
}

/// Whether the tree that ends at a place holds.
#[cycle(truth)]
fn truth_at<C: Cells>(
    row: &Row<'_, C>,
    steps: &mut [Step<'_>],
    place: usize,
) -> Result<bool, Memory>
    requires linked { AreLinkedTrees steps.old }
    requires some { 0 < place }
    requires within { place ≤ length steps.old }
    requires columns { All (HasColumn (C.has row.now.cells.now)) (headers_of_nodes steps.old) }
    ensures value { IfOk result (λ truth. take 1
        (truths_before (truth_on (C.cell row.now.cells.now)) steps.old place) ≡ truth ∷ []) }
    ensures same { steps.new ≡ steps.old }
{
    if let Some(join) = steps[place - 1].join() {
        return joined_at(row, steps, place - 1, join);
    }
    if steps[place - 1].is_negation() {
        let truth = truth_at(row, steps, place - 1)?;
        return Ok(!truth);
    }
    steps[place - 1].is_met(row)
}

impl Step<'_> {
    pub(crate) fn size(&self) -> usize
        ensures { result ≡ self.now.size }
    {
        self.size
    }

    /// How the header joins trees, where it does.
    pub(crate) fn join(&self) -> Option<Join>
        ensures { result ≡ join_of self.now.header }
    {
        match &self.header {
            ReadyHeader::Join(join) => Some(*join),
            _ => None,
        }
    }

    pub(crate) fn is_negation(&self) -> bool
        ensures { result ≡ is_negation self.now.header }
    {
        matches!(&self.header, ReadyHeader::Negate)
    }

    /// Whether the header's test is met by a row.
    fn is_met<C: Cells>(&mut self, row: &Row<'_, C>) -> Result<bool, Memory>
        requires { HasColumn (C.has row.now.cells.now) self.old.header }
        ensures met { (test : Test) → self.old.header ≡ header.Test test →
            IfOk result (λ met. met ≡ truth_on (C.cell row.now.cells.now) test) }
        ensures same { self.new ≡ self.old }
    {
        match &mut self.header {
            ReadyHeader::Test(test) => test.is_met(row),
            _ => Ok(false),
        }
    }

    /// Keeps the marks of the rows that meet the header's test.
    pub(crate) fn keep_met<S: Scan>(
        &mut self,
        block: &Block<'_, S>,
        marks: &mut [bool],
    ) -> Result<(), Memory>
        requires columns { All
            (λ row. HasColumn (S.has block.now.scan.now row) self.old.header) block.now.rows.now }
        requires marked { length marks.old ≡ length block.now.rows.now }
        ensures kept { (test : Test) → self.old.header ≡ header.Test test → OnOk result
            (AreKept (λ row. truth_on (S.cell block.now.scan.now row) test)
            block.now.rows.now marks.old marks.new) }
        ensures same { self.new ≡ self.old }
    {
        match &mut self.header {
            ReadyHeader::Test(test) => test.keep_met(block, marks),
            _ => Ok(()),
        }
    }
}
