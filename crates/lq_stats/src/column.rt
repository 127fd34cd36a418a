ghost use Rattle.std.specs.Prelude.{◌≡◌, slice_get};
ghost use Rattle.lq_stats.specs.Columns.{column_cells};

use crate::cell::StatCell;

/// What a statistic takes of each of many rows, in order.
#[derive(Drop)]
pub enum StatColumn {
    /// For `StatKind::Count`: whether each row is counted.
    Marks(Vec<bool>),
    /// For the other kinds: the number in each row's column.
    Numbers(Vec<i128>),
}

impl StatColumn {
    /// The cell of the row in a place. None after the last row.
    #[inline]
    pub fn get(&self, place: usize) -> Option<StatCell>
        ensures { result ≡ slice_get (column_cells self.now) place }
    {
        match self {
            StatColumn::Marks(marks) => Some(StatCell::Counted(*marks.get(place)?)),
            StatColumn::Numbers(numbers) => Some(StatCell::Number(*numbers.get(place)?)),
        }
    }
}
