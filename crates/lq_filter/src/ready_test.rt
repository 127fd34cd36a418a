ghost use Rattle.std.specs.Prelude.{◌≡◌, ◌≤◌, All, IfOk, OnOk, length};
ghost use Rattle.lq_filter.specs.Marks.{AreKept, AreKeptBefore, AreKeptBetween};
ghost use Rattle.lq_filter.specs.Ready.{check_of_element, check_of_number};
ghost use Rattle.lq_filter.specs.ReadyHeaders.{test_of_ready};
ghost use Rattle.lq_filter.specs.Trees.{truth_on};
ghost use Rattle.lq_filter.specs.declared.check.Comparison.TheVariants as by;
ghost use Rattle.lq_filter.specs.declared.check.Property.TheVariants.{Compares};

use crate::cells::Cells;
use crate::element_check::ElementCheck;
use crate::marks::Block;
use crate::number_check::NumberCheck;
use crate::ready::Row;
use crate::ready_check::ReadyCheck;
use crate::scan::Scan;
use lq_records::Memory;
use lq_schema::{Col, ColKind, kind};
use std::alloc::Global;

/// A test whose check is ready.
#[derive(Drop)]
pub struct ReadyTest<'f> {
    /// The column whose cell is tested.
    pub column: Col,
    /// What is asked of the cell's value.
    pub check: ReadyCheck<'f>,
}

impl ReadyTest<'_> {
    /// Whether a row meets the test. Where a number or a text stands in the cell as it is, no value
    /// is made of it.
    pub(crate) fn is_met<C: Cells>(&mut self, row: &Row<'_, C>) -> Result<bool, Memory>
        requires { C.has row.now.cells.now self.old.column }
        ensures met { IfOk result
            (λ met. met ≡ truth_on (C.cell row.now.cells.now) (test_of_ready self.old)) }
        ensures same { test_of_ready self.new ≡ test_of_ready self.old }
    {
        if self.check.is_of_number() {
            return self.is_met_by_number(row.alloc, row.cells);
        }
        match self.check.element() {
            Some(element) => self.is_met_by_element(row.alloc, row.cells, element),
            None => self.is_met_by_text(row.alloc, row.cells),
        }
    }

    /// Keeps the marks of the rows that meet the test. Only marked rows are tested.
    pub(crate) fn keep_met<S: Scan>(
        &mut self,
        block: &Block<'_, S>,
        marks: &mut [bool],
    ) -> Result<(), Memory>
        requires columns { All (λ row. S.has block.now.scan.now row self.old.column)
            block.now.rows.now }
        requires marked { length marks.old ≡ length block.now.rows.now }
        ensures kept { OnOk result (AreKept
            (λ row. truth_on (S.cell block.now.scan.now row) (test_of_ready self.old))
            block.now.rows.now marks.old marks.new) }
        ensures same { test_of_ready self.new ≡ test_of_ready self.old }
    {
        if let Some(check) = self.check.of_number() {
            return self.keep_met_by_number(block, check, marks);
        }
        if let Some(check) = self.check.of_element() {
            return self.keep_met_by_element(block, check, marks);
        }
        match kind(self.column) {
            ColKind::Str => self.keep_met_by_text(block, marks),
            _ => self.keep_met_by_value(block, marks),
        }
    }

    /// The same for a check that asks for a number. The rows are tested one by one where the cells
    /// give no answer for many at once.
    fn keep_met_by_number<S: Scan>(
        &mut self,
        block: &Block<'_, S>,
        check: NumberCheck,
        marks: &mut [bool],
    ) -> Result<(), Memory>
        requires columns { All (λ row. S.has block.now.scan.now row self.old.column)
            block.now.rows.now }
        requires marked { length marks.old ≡ length block.now.rows.now }
        requires asked { self.old.check ≡ check_of_number check }
        ensures kept { OnOk result (AreKept
            (λ row. truth_on (S.cell block.now.scan.now row) (test_of_ready self.old))
            block.now.rows.now marks.old marks.new) }
        ensures same { test_of_ready self.new ≡ test_of_ready self.old }
    {
        let done = block
            .scan
            .keep_numbers(block.rows, self.column, check, marks);
        self.keep_rest_by_number(block, done, marks)
    }

    /// The same for the rows from a place on.
    fn keep_rest_by_number<S: Scan>(
        &mut self,
        block: &Block<'_, S>,
        start: usize,
        marks: &mut [bool],
    ) -> Result<(), Memory>
        requires columns { All (λ row. S.has block.now.scan.now row self.old.column)
            block.now.rows.now }
        requires marked { length marks.old ≡ length block.now.rows.now }
        requires within { start ≤ length block.now.rows.now }
        ensures kept { OnOk result (AreKeptBetween
            (λ row. truth_on (S.cell block.now.scan.now row) (test_of_ready self.old))
            block.now.rows.now marks.old marks.new start (length block.now.rows.now)) }
        ensures same { test_of_ready self.new ≡ test_of_ready self.old }
    {
        for place in start..block.rows.len() {
            if marks[place] {
                marks[place] = self.is_met_by_number(block.alloc, &block.at(place))?;
            }
        }
        Ok(())
    }

    /// The same for a column of texts. The rows are tested one by one where the cells give no
    /// answer for many at once.
    fn keep_met_by_text<S: Scan>(
        &mut self,
        block: &Block<'_, S>,
        marks: &mut [bool],
    ) -> Result<(), Memory>
        requires columns { All (λ row. S.has block.now.scan.now row self.old.column)
            block.now.rows.now }
        requires marked { length marks.old ≡ length block.now.rows.now }
        ensures kept { OnOk result (AreKept
            (λ row. truth_on (S.cell block.now.scan.now row) (test_of_ready self.old))
            block.now.rows.now marks.old marks.new) }
        ensures same { test_of_ready self.new ≡ test_of_ready self.old }
    {
        let done = self.keep_texts(block, marks);
        self.keep_rest_by_text(block, done, marks)
    }

    /// Keeps the marks of the first rows that meet the test, where it asks for a text and the cells
    /// give an answer for many rows at once, and says how many rows were looked at.
    fn keep_texts<S: Scan>(&self, block: &Block<'_, S>, marks: &mut [bool]) -> usize
        requires { length marks.old ≡ length block.now.rows.now }
        ensures within { result ≤ length block.now.rows.now }
        ensures kept { AreKeptBefore
            (λ row. truth_on (S.cell block.now.scan.now row) (test_of_ready self.now))
            block.now.rows.now marks.old marks.new result }
    {
        match self.check.of_text() {
            Some(check) => block.scan.keep_texts(block.rows, self.column, check, marks),
            None => 0,
        }
    }

    /// The same for the rows from a place on.
    fn keep_rest_by_text<S: Scan>(
        &mut self,
        block: &Block<'_, S>,
        start: usize,
        marks: &mut [bool],
    ) -> Result<(), Memory>
        requires columns { All (λ row. S.has block.now.scan.now row self.old.column)
            block.now.rows.now }
        requires marked { length marks.old ≡ length block.now.rows.now }
        requires within { start ≤ length block.now.rows.now }
        ensures kept { OnOk result (AreKeptBetween
            (λ row. truth_on (S.cell block.now.scan.now row) (test_of_ready self.old))
            block.now.rows.now marks.old marks.new start (length block.now.rows.now)) }
        ensures same { test_of_ready self.new ≡ test_of_ready self.old }
    {
        for place in start..block.rows.len() {
            if marks[place] {
                marks[place] = self.is_met_by_text(block.alloc, &block.at(place))?;
            }
        }
        Ok(())
    }

    /// The same for a check that asks for an element of a list.
    fn keep_met_by_element<S: Scan>(
        &mut self,
        block: &Block<'_, S>,
        check: ElementCheck<'_>,
        marks: &mut [bool],
    ) -> Result<(), Memory>
        requires columns { All (λ row. S.has block.now.scan.now row self.old.column)
            block.now.rows.now }
        requires marked { length marks.old ≡ length block.now.rows.now }
        requires asked { self.old.check ≡ check_of_element check }
        ensures kept { OnOk result (AreKept
            (λ row. truth_on (S.cell block.now.scan.now row) (test_of_ready self.old))
            block.now.rows.now marks.old marks.new) }
        ensures same { test_of_ready self.new ≡ test_of_ready self.old }
    {
        let done = block
            .scan
            .keep_elements(block.rows, self.column, check, marks);
        self.keep_rest_by_element(block, done, check.element, marks)
    }

    /// The same for the rows from a place on.
    fn keep_rest_by_element<S: Scan>(
        &mut self,
        block: &Block<'_, S>,
        start: usize,
        element: &str,
        marks: &mut [bool],
    ) -> Result<(), Memory>
        requires columns { All (λ row. S.has block.now.scan.now row self.old.column)
            block.now.rows.now }
        requires marked { length marks.old ≡ length block.now.rows.now }
        requires within { start ≤ length block.now.rows.now }
        requires asked { self.old.check.property ≡ Compares (by.Contains element.now) }
        ensures kept { OnOk result (AreKeptBetween
            (λ row. truth_on (S.cell block.now.scan.now row) (test_of_ready self.old))
            block.now.rows.now marks.old marks.new start (length block.now.rows.now)) }
        ensures same { test_of_ready self.new ≡ test_of_ready self.old }
    {
        for place in start..block.rows.len() {
            if marks[place] {
                marks[place] = self.is_met_by_element(block.alloc, &block.at(place), element)?;
            }
        }
        Ok(())
    }

    /// The same for any other column.
    fn keep_met_by_value<S: Scan>(
        &mut self,
        block: &Block<'_, S>,
        marks: &mut [bool],
    ) -> Result<(), Memory>
        requires columns { All (λ row. S.has block.now.scan.now row self.old.column)
            block.now.rows.now }
        requires marked { length marks.old ≡ length block.now.rows.now }
        ensures kept { OnOk result (AreKept
            (λ row. truth_on (S.cell block.now.scan.now row) (test_of_ready self.old))
            block.now.rows.now marks.old marks.new) }
        ensures same { test_of_ready self.new ≡ test_of_ready self.old }
    {
        for place in 0..block.rows.len() {
            if marks[place] {
                marks[place] = self.is_met_by_value(block.alloc, &block.at(place))?;
            }
        }
        Ok(())
    }

    /// Whether a row meets the test, by its number where that stands in the cell as it is.
    #[inline(always)]
    fn is_met_by_number<C: Cells>(&mut self, alloc: Global, cells: &C) -> Result<bool, Memory>
        requires { C.has cells.now self.old.column }
        ensures met { IfOk result
            (λ met. met ≡ truth_on (C.cell cells.now) (test_of_ready self.old)) }
        ensures same { test_of_ready self.new ≡ test_of_ready self.old }
    {
        match cells.number(self.column) {
            Some(number) => Ok(self.check.is_met_by_number(number)),
            None => self.is_met_by_value(alloc, cells),
        }
    }

    /// Whether a row meets the test, by its text where that stands in the cell as it is.
    #[inline(always)]
    fn is_met_by_text<C: Cells>(&mut self, alloc: Global, cells: &C) -> Result<bool, Memory>
        requires { C.has cells.now self.old.column }
        ensures met { IfOk result
            (λ met. met ≡ truth_on (C.cell cells.now) (test_of_ready self.old)) }
        ensures same { test_of_ready self.new ≡ test_of_ready self.old }
    {
        match cells.text(self.column) {
            Some(text) => Ok(self.check.is_met_by_text(text)),
            None => self.is_met_by_value(alloc, cells),
        }
    }

    /// Whether a row meets the test, by whether the list in its cell has the element that is asked
    /// for, where that is found without memory.
    #[inline(always)]
    fn is_met_by_element<C: Cells>(
        &mut self,
        alloc: Global,
        cells: &C,
        element: &str,
    ) -> Result<bool, Memory>
        requires has { C.has cells.now self.old.column }
        requires asked { self.old.check.property ≡ Compares (by.Contains element.now) }
        ensures met { IfOk result
            (λ met. met ≡ truth_on (C.cell cells.now) (test_of_ready self.old)) }
        ensures same { test_of_ready self.new ≡ test_of_ready self.old }
    {
        match cells.contains(self.column, element) {
            Some(found) => Ok(self.check.is_met_by_found(found)),
            None => self.is_met_by_value(alloc, cells),
        }
    }

    /// Whether a row meets the test, by the value that is made of its cell. It is kept out of the
    /// loops over rows, so that these stay short.
    #[inline(never)]
    fn is_met_by_value<C: Cells>(&mut self, alloc: Global, cells: &C) -> Result<bool, Memory>
        requires { C.has cells.now self.old.column }
        ensures met { IfOk result
            (λ met. met ≡ truth_on (C.cell cells.now) (test_of_ready self.old)) }
        ensures same { test_of_ready self.new ≡ test_of_ready self.old }
    {
        let value = cells.get(alloc, self.column)?;
        self.check.is_met(alloc, &value)
    }
}
