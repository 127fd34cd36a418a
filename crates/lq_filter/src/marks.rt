ghost use Rattle.std.specs.Prelude.{◌≡◌, ◌||◌, ◌<◌, ◌≤◌, ℕ, All, OnOk, false, length, not};
ghost use Rattle.std.specs.Prelude.{slice_index_or, take, true};
ghost use Rattle.std.specs.List.{list_any};
ghost use Rattle.lq_filter.specs.Linked.{AreLinkedTrees, headers_of_nodes, truths_before};
ghost use Rattle.lq_filter.specs.Marks.{AreKept};
ghost use Rattle.lq_filter.specs.Trees.{HasColumn, some_or_all, truth_on};

use crate::ready::Step;
use crate::scan::{Scan, ScannedRow};
use lq_records::Memory;
use std::alloc::Global;

/// Rows that are tested together, what tells their cells, and the allocator for what their values
/// take.
#[derive(Drop)]
pub(crate) struct Block<'r, S: Scan> {
    pub(crate) alloc: Global,
    pub(crate) scan: &'r S,
    pub(crate) rows: &'r [S::Row],
}

impl<S: Scan> Block<'_, S> {
    /// The row at a place.
    #[inline(always)]
    pub(crate) fn at(&self, place: usize) -> ScannedRow<'_, S>
        requires { place < length self.now.rows.now }
        ensures scan { result.scan.now ≡ self.now.scan.now }
        ensures row { (other : S.Row) → result.row.now
            ≡ slice_index_or self.now.rows.now place other }
    {
        ScannedRow {
            scan: self.scan,
            row: &self.rows[place],
        }
    }
}

/// The last trees before a place.
#[derive(Clone, Copy)]
pub(crate) struct LastTrees {
    /// The place where the last of them ends.
    pub(crate) end: usize,
    /// How many.
    pub(crate) count: usize,
}

/// Keeps the marks of the rows on which all of the trees hold. The first of them is looked at
/// first.
#[cycle(marks)]
pub(crate) fn keep_all<S: Scan>(
    block: &Block<'_, S>,
    steps: &mut [Step<'_>],
    trees: LastTrees,
    marks: &mut [bool],
) -> Result<(), Memory>
    requires linked { AreLinkedTrees steps.old }
    requires within { trees.end ≤ length steps.old }
    requires columns { All
        (λ row. All (HasColumn (S.has block.now.scan.now row)) (headers_of_nodes steps.old))
        block.now.rows.now }
    requires marked { length marks.old ≡ length block.now.rows.now }
    ensures kept { OnOk result (AreKept
        (λ row. some_or_all false
        (take trees.count
        (truths_before (truth_on (S.cell block.now.scan.now row)) steps.old trees.end)))
        block.now.rows.now marks.old marks.new) }
    ensures same { steps.new ≡ steps.old }
{
    if trees.end == 0 || trees.count == 0 {
        return Ok(());
    }
    let earlier = LastTrees {
        end: trees.end - steps[trees.end - 1].size(),
        count: trees.count - 1,
    };
    keep_all(block, steps, earlier, marks)?;
    keep_tree(block, steps, trees.end, marks)
}

/// Keeps the marks of the rows on which one of the trees holds. The first of them is looked at
/// first.
#[cycle(marks)]
fn keep_any<S: Scan>(
    block: &Block<'_, S>,
    steps: &mut [Step<'_>],
    trees: LastTrees,
    marks: &mut [bool],
) -> Result<(), Memory>
    requires linked { AreLinkedTrees steps.old }
    requires within { trees.end ≤ length steps.old }
    requires columns { All
        (λ row. All (HasColumn (S.has block.now.scan.now row)) (headers_of_nodes steps.old))
        block.now.rows.now }
    requires marked { length marks.old ≡ length block.now.rows.now }
    ensures kept { OnOk result (AreKept
        (λ row. some_or_all true
        (take trees.count
        (truths_before (truth_on (S.cell block.now.scan.now row)) steps.old trees.end)))
        block.now.rows.now marks.old marks.new) }
    ensures same { steps.new ≡ steps.old }
{
    if trees.end == 0 || trees.count == 0 {
        unmark_all(marks);
        return Ok(());
    }
    let earlier = LastTrees {
        end: trees.end - steps[trees.end - 1].size(),
        count: trees.count - 1,
    };
    let mut left = Vec::from_slice(block.alloc, marks)?;
    keep_any(block, steps, earlier, marks)?;
    unmark(&mut left, marks);
    keep_tree(block, steps, trees.end, &mut left)?;
    mark(marks, &left);
    Ok(())
}

/// Keeps the marks of the rows on which the tree holds that ends at a place. Where no row is marked
/// nothing is tested.
#[cycle(marks)]
fn keep_tree<S: Scan>(
    block: &Block<'_, S>,
    steps: &mut [Step<'_>],
    place: usize,
    marks: &mut [bool],
) -> Result<(), Memory>
    requires linked { AreLinkedTrees steps.old }
    requires some { 0 < place }
    requires within { place ≤ length steps.old }
    requires columns { All
        (λ row. All (HasColumn (S.has block.now.scan.now row)) (headers_of_nodes steps.old))
        block.now.rows.now }
    requires marked { length marks.old ≡ length block.now.rows.now }
    ensures kept { OnOk result (AreKept
        (λ row. slice_index_or
        (truths_before (truth_on (S.cell block.now.scan.now row)) steps.old place) 0 false)
        block.now.rows.now marks.old marks.new) }
    ensures same { steps.new ≡ steps.old }
{
    if !has_mark(marks) {
        return Ok(());
    }
    if let Some(join) = steps[place - 1].join() {
        let trees = LastTrees {
            end: place - 1,
            count: join.count,
        };
        if join.any {
            return keep_any(block, steps, trees, marks);
        }
        return keep_all(block, steps, trees, marks);
    }
    if steps[place - 1].is_negation() {
        let mut met = Vec::from_slice(block.alloc, marks)?;
        keep_tree(block, steps, place - 1, &mut met)?;
        unmark(marks, &met);
        return Ok(());
    }
    steps[place - 1].keep_met(block, marks)
}

/// Whether a row is marked.
fn has_mark(marks: &[bool]) -> bool
    ensures { result ≡ list_any (λ mark. mark) marks.now }
{
    marks.iter().any(|mark| *mark)
}

/// Takes all marks away.
fn unmark_all(marks: &mut [bool])
    ensures { (place : ℕ) → slice_index_or marks.new place false ≡ false }
{
    for mark in marks.iter_mut() {
        *mark = false;
    }
}

/// Takes the marks away that the others have.
fn unmark(marks: &mut [bool], others: &[bool])
    requires { length marks.old ≡ length others.now }
    ensures { AreKept not others.now marks.old marks.new }
{
    for (place, other) in others.iter().enumerate() {
        marks[place] = marks[place] && !*other;
    }
}

/// Adds the marks that the others have.
fn mark(marks: &mut [bool], others: &[bool])
    requires { length marks.old ≡ length others.now }
    ensures { (place : ℕ) → slice_index_or marks.new place false
        ≡ (slice_index_or marks.old place false || slice_index_or others.now place false) }
{
    for (place, other) in others.iter().enumerate() {
        marks[place] = marks[place] || *other;
    }
}
