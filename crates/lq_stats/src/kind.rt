/// What a statistic says of the rows of a group.
#[derive(Clone, Copy)]
pub enum StatKind {
    /// How many rows a filter chooses.
    Count,
    /// The sum of a column's numbers, 0 over no rows.
    Sum,
    /// The least of a column's numbers, 0 over no rows.
    Min,
    /// The greatest of a column's numbers, 0 over no rows.
    Max,
    /// The average of a column's numbers, 0 over no rows.
    Avg,
}
