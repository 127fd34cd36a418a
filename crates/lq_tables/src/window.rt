use lq_schema::Names;

/// What a query says of the rows that it wants: an interval of seconds, and the names that it
/// fixes.
#[derive(Drop)]
pub struct Window {
    /// The first second of the interval, counted from the beginning of 1970. Earlier lines of the
    /// log have no row, and slices of histories begin no earlier.
    pub from: u64,
    /// The second after the last one of the interval.
    pub until: u64,
    /// The names that the query fixes. They leave out no row for now.
    pub names: Names,
}
