ghost use Rattle.std.specs.Prelude.{◌≡◌, IfOk, map};
ghost use Rattle.lq_filter.specs.Trees.{holds, truth_on};
ghost use Rattle.lq_query.specs.Lines.{seen_cells};

use crate::sight::Sight;
use lq_filter::ReadyFilter;
use lq_records::Memory;
use lq_tables::Row;
use std::alloc::Global;

/// Which rows are shown: those that a filter chooses, as many as are left to show.
#[derive(Drop)]
pub struct Selection<'f> {
    /// The filter that chooses them.
    pub filter: ReadyFilter<'f>,
    /// How many rows may still be shown.
    pub left: usize,
}

impl Selection<'_> {
    /// Which of some rows the filter chooses, row by row. The only error is out of memory.
    pub fn marks(
        &mut self,
        alloc: Global,
        sight: &Sight<'_>,
        rows: &[Row],
    ) -> Result<Vec<bool>, Memory>
        ensures marks { IfOk result (λ marks. marks.items
            ≡ map (λ row. holds (truth_on (seen_cells sight.now row)) self.old.filter) rows.now) }
        ensures same { self.new ≡ self.old }
    {
        marks_of(alloc, &mut self.filter, sight, rows)
    }
}

/// Which of some rows a filter chooses, row by row. The only error is out of memory.
pub fn marks_of(
    alloc: Global,
    filter: &mut ReadyFilter<'_>,
    sight: &Sight<'_>,
    rows: &[Row],
) -> Result<Vec<bool>, Memory>
    ensures marks { IfOk result (λ marks. marks.items
        ≡ map (λ row. holds (truth_on (seen_cells sight.now row)) filter.old) rows.now) }
    ensures same { filter.new ≡ filter.old }
{
    filter.marks(alloc, sight, rows)
}
