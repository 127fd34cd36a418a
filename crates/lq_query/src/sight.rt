ghost use Rattle.std.specs.Prelude.{◌≡◌, ⊤, IfOk, IfSome};
ghost use Rattle.lq_schema.specs.Value.{Number, Words, meaning_of};
ghost use Rattle.lq_query.specs.Lines.{seen_cells};

use crate::row_test::{
    HostContact, HostNumber, HostText, ServiceContact, ServiceNumber, ServiceText,
    keep_by_host_status, keep_by_service_status, keep_first,
};
use lq_auth::View;
use lq_filter::{ElementCheck, NumberCheck, Scan, TextCheck};
use lq_live::Live;
use lq_records::Memory;
use lq_schema::{Col, HostColumn, ObjectColumn, OwnColumn, ServiceColumn, Val};
use lq_tables::{
    Row, RowCells, host_number, host_text, row_contains, row_number, row_text, service_number,
    service_text,
};
use std::alloc::Global;

/// A state, and what a query sees of it. Filters test the cells of its rows.
#[derive(Clone, Copy)]
pub struct Sight<'a> {
    /// The state.
    pub live: &'a Live,
    /// What the query sees of it.
    pub view: &'a View,
}

impl<'a> Sight<'a> {
    /// The number of a cell of a host or a service in a table of its own, or of the service's host,
    /// that the state holds as it is. It may give None for any cell, which is then found by what
    /// its column is about. All that finds it is inlined into the loop over the rows, which was
    /// faster than a call.
    #[inline(always)]
    pub fn own_number(&self, row: &Row, column: Col) -> Option<i128>
        ensures { IfSome result (λ number. seen_cells self.now row.now column ≡ Number number) }
    {
        match column.own {
            OwnColumn::Host(own) => host_number(self.live, row, own),
            OwnColumn::Service(own) => service_number(self.live, row, own),
            _ => None,
        }
    }

    /// The text of such a cell.
    #[inline(always)]
    pub fn own_text(&self, row: &Row, column: Col) -> Option<&'a str>
        ensures { IfSome result (λ text. seen_cells self.now row.now column ≡ Words text.now) }
    {
        match column.own {
            OwnColumn::Host(own) => host_text(self.live, row, own),
            OwnColumn::Service(own) => service_text(self.live, row, own),
            _ => None,
        }
    }
}

impl Scan for Sight<'_> {
    type Row = Row;

    ghost has = { λ _ _ _. ⊤ };

    ghost cell = { λ sight row column. seen_cells sight row column };

    fn get(&self, alloc: Global, row: &Row, c: Col) -> Result<Val<'_>, Memory>
        ensures { IfOk result (λ value. meaning_of value ≡ seen_cells self.now row.now c) }
    {
        RowCells::of(self.live, row, self.view).value(alloc, c)
    }

    #[inline]
    fn number(&self, row: &Row, c: Col) -> Option<i128> {
        row_number(self.live, row, c)
    }

    #[inline]
    fn text(&self, row: &Row, c: Col) -> Option<&str> {
        row_text(self.live, row, c, self.view)
    }

    #[inline]
    fn contains(&self, row: &Row, c: Col, text: &str) -> Option<bool> {
        row_contains(self.live, row, c, text)
    }

    fn keep_numbers(&self, rows: &[Row], c: Col, check: NumberCheck, marks: &mut [bool]) -> usize {
        match c.own {
            OwnColumn::Host(HostColumn::Status(column)) => {
                keep_by_host_status(self, column, check, rows, marks)
            }
            OwnColumn::Service(ServiceColumn::Status(column)) => {
                keep_by_service_status(self, column, check, rows, marks)
            }
            OwnColumn::Host(column) => {
                keep_first(
                    &HostNumber {
                        sight: *self,
                        column,
                        check,
                    },
                    rows,
                    marks,
                )
            }
            OwnColumn::Service(column) => {
                keep_first(
                    &ServiceNumber {
                        sight: *self,
                        column,
                        check,
                    },
                    rows,
                    marks,
                )
            }
            _ => 0,
        }
    }

    fn keep_texts(&self, rows: &[Row], c: Col, check: TextCheck<'_>, marks: &mut [bool]) -> usize {
        match c.own {
            OwnColumn::Host(column) => {
                let test = HostText {
                    sight: *self,
                    column,
                    check,
                };
                keep_first(&test, rows, marks)
            }
            OwnColumn::Service(column) => {
                let test = ServiceText {
                    sight: *self,
                    column,
                    check,
                };
                keep_first(&test, rows, marks)
            }
            _ => 0,
        }
    }

    fn keep_elements(
        &self,
        rows: &[Row],
        c: Col,
        check: ElementCheck<'_>,
        marks: &mut [bool],
    ) -> usize {
        match c.own {
            OwnColumn::Host(HostColumn::Object(ObjectColumn::Contacts)) => {
                keep_first(&HostContact::of(self, check), rows, marks)
            }
            OwnColumn::Service(ServiceColumn::Object(ObjectColumn::Contacts)) => {
                keep_first(&ServiceContact::of(self, check), rows, marks)
            }
            _ => 0,
        }
    }
}
