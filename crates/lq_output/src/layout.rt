use lq_records::{Format, Separators};

/// How a body is laid out.
#[derive(Clone, Copy)]
pub struct Layout {
    /// The format.
    pub format: Format,
    /// The separators, which `Format::Csv` alone writes.
    pub separators: Separators,
}

/// Where the next cell of a body comes.
#[derive(Clone, Copy)]
pub struct Spot {
    /// How the body is laid out.
    pub layout: Layout,
    /// Whether a line was ended before.
    pub has_line: bool,
    /// Whether a cell stands before it in its line.
    pub has_cell: bool,
}
