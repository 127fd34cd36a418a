ghost use Rattle.std.specs.Prelude.{◌≡◌, IfOk};

use lq_records::Memory;
use lq_statehist::Slice;
use std::alloc::Global;
use std::marker::Model;

/// A slice of the history of a host or a service, and the interval that was asked for.
#[derive(Clone, Copy)]
pub struct HistoryRow {
    /// The slice.
    pub slice: Slice,
    /// The first second of the interval.
    pub from: u64,
    /// The second after the last one of the interval.
    pub until: u64,
}

/// A row of a history by itself on the heap, so that it makes the rows of other tables no longer.
/// Contracts see it as the row.
#[derive(Drop)]
pub struct BoxedHistoryRow {
    inner: Box<HistoryRow>,
}

impl Model for BoxedHistoryRow {
    ghost use Rattle.lq_tables.specs.declared.history_row.HistoryRow.{HistoryRow};

    ghost Value = { HistoryRow };

    ghost view = { λ boxed. boxed.inner.value };
}

impl BoxedHistoryRow {
    /// Puts a row on the heap. The only error is out of memory.
    pub fn new(alloc: Global, row: HistoryRow) -> Result<Self, Memory>
        ensures { IfOk result (λ boxed. boxed ≡ row) }
    {
        let inner = Box::new(alloc, row)?;
        Ok(BoxedHistoryRow { inner })
    }

    /// The row.
    #[inline]
    pub fn row(&self) -> &HistoryRow
        ensures { result.now ≡ self.now }
    {
        &self.inner
    }
}
