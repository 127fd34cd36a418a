ghost use Rattle.std.specs.Prelude.{◌≡◌, ◌≤◌, ℕ, IfOk, IfSome, List, bytes_eq, length};
ghost use Rattle.std.specs.List.{list_any};
ghost use Rattle.lq_filter.specs.Marks.{AreKeptBefore};
ghost use Rattle.lq_filter.specs.Ready.{check_of_element, check_of_number, check_of_text};
ghost use Rattle.lq_filter.specs.Tests.{is_met};
ghost use Rattle.lq_schema.specs.Value.{Number, Texts, Value, Words, meaning_of};
ghost use Rattle.lq_schema.specs.declared.columns.Col.{Col};

use crate::cells::Cells;
use crate::element_check::ElementCheck;
use crate::number_check::NumberCheck;
use crate::text_check::TextCheck;
use lq_records::Memory;
use lq_schema::{Col, Val};
use std::alloc::Global;

/// What tells the cells of many rows.
pub trait Scan {
    /// What names a row.
    type Row;

    /// Which columns a row has.
    ghost has: { Self → Self.Row → Col → Type 0 };

    /// The value that a row has in each column.
    ghost cell: { Self → Self.Row → Col → Value };

    /// The value of a row's column. The only error is out of memory.
    fn get(&self, alloc: Global, row: &Self::Row, c: Col) -> Result<Val<'_>, Memory>
        requires { has self.now row.now c }
        ensures { IfOk result (λ value. meaning_of value ≡ cell self.now row.now c) };

    /// The number in a row's column, where it is found without memory. It may be None for any
    /// column.
    fn number(&self, row: &Self::Row, c: Col) -> Option<i128>
        ensures { IfSome result (λ number. cell self.now row.now c ≡ Number number) };

    /// The text in a row's column, where it is borrowed as it stands. It may be None for any
    /// column.
    fn text(&self, row: &Self::Row, c: Col) -> Option<&str>
        ensures { IfSome result (λ text. cell self.now row.now c ≡ Words text.now) };

    /// Whether the list of texts in a row's column has an element, where that is found without
    /// memory. It may be None for any column.
    fn contains(&self, row: &Self::Row, c: Col, text: &str) -> Option<bool>
        ensures { IfSome result (λ found. (texts : List (List ℕ))
            × (cell self.now row.now c ≡ Texts texts)
            × (found ≡ list_any (λ element. bytes_eq element text.now) texts)) }
    {
        None
    }

    /// Keeps the marks of the first rows whose numbers in a column are as a check asks, and says
    /// how many rows it looked at; it may stop at any row. So where many rows are tested, the
    /// column is looked at once and not again for each.
    fn keep_numbers(
        &self,
        rows: &[Self::Row],
        c: Col,
        check: NumberCheck,
        marks: &mut [bool],
    ) -> usize
        requires { length marks.old ≡ length rows.now }
        ensures within { result ≤ length rows.now }
        ensures kept { AreKeptBefore (λ row. is_met (check_of_number check) (cell self.now row c))
            rows.now marks.old marks.new result }
    {
        0
    }

    /// The same for the marks of rows whose texts in a column are the one that a check asks for, or
    /// another one where the check is negated.
    fn keep_texts(
        &self,
        rows: &[Self::Row],
        c: Col,
        check: TextCheck<'_>,
        marks: &mut [bool],
    ) -> usize
        requires { length marks.old ≡ length rows.now }
        ensures within { result ≤ length rows.now }
        ensures kept { AreKeptBefore
            (λ row. is_met (check_of_text check.entry) (cell self.now row c))
            rows.now marks.old marks.new result }
    {
        0
    }

    /// The same for the marks of rows whose lists in a column have the element that a check asks
    /// for, or haven't it where the check is negated.
    fn keep_elements(
        &self,
        rows: &[Self::Row],
        c: Col,
        check: ElementCheck<'_>,
        marks: &mut [bool],
    ) -> usize
        requires { length marks.old ≡ length rows.now }
        ensures within { result ≤ length rows.now }
        ensures kept { AreKeptBefore
            (λ row. is_met (check_of_element check.entry) (cell self.now row c))
            rows.now marks.old marks.new result }
    {
        0
    }
}

/// A row by itself.
#[derive(Drop)]
pub(crate) struct ScannedRow<'s, S: Scan> {
    pub(crate) scan: &'s S,
    pub(crate) row: &'s S::Row,
}

impl<S: Scan> Cells for ScannedRow<'_, S> {
    ghost has = { λ at. S.has at.scan.now at.row.now };

    ghost cell = { λ at. S.cell at.scan.now at.row.now };

    fn get(&self, alloc: Global, c: Col) -> Result<Val<'_>, Memory> {
        self.scan.get(alloc, self.row, c)
    }

    #[inline]
    fn number(&self, c: Col) -> Option<i128> {
        self.scan.number(self.row, c)
    }

    #[inline]
    fn text(&self, c: Col) -> Option<&str> {
        self.scan.text(self.row, c)
    }

    #[inline]
    fn contains(&self, c: Col, text: &str) -> Option<bool> {
        self.scan.contains(self.row, c, text)
    }
}
