/// What a row adds to a statistic.
#[derive(Clone, Copy)]
pub enum StatCell {
    /// For `StatKind::Count`: whether the row is counted.
    Counted(bool),
    /// For the other kinds: the number in the row's column.
    Number(i128),
}
