use crate::kind::StatKind;
use lq_records::Items;
use lq_schema::Val;

/// The statistics that a query asks for.
#[derive(Drop)]
pub struct StatsSpec {
    /// How many columns put the rows into groups. Rows that are alike in all of them are one group.
    pub keys: usize,
    /// The statistics, in order.
    pub entries: Items<StatKind>,
}

/// What a reply says of a group.
#[derive(Drop)]
pub struct StatLine {
    /// The cells that the rows of the group have in common, in order. A text is `Val::Own`.
    pub keys: Items<Val<'static>>,
    /// The values of the statistics, in order: averages are `Val::Micro`, all others `Val::Int`.
    pub values: Items<Val<'static>>,
}
