ghost use Rattle.std.specs.Prelude.{◌≡◌, ◌≤◌, ◌^◌, [], length, map, unsigned_abs};
ghost use Rattle.std.specs.List.{AllByRecursion};
ghost use Rattle.lq_schema.specs.Value.{meaning_of};
ghost use Rattle.lq_stats.specs.Columns.{column_cells, marked_by_both, with_column};
ghost use Rattle.lq_stats.specs.Groups.{average};
ghost use Rattle.lq_stats.specs.Totals.{HasRoomForRows, IsSized, IsSmall, greater, lesser};
ghost use Rattle.lq_stats.specs.Totals.{total_of, total_value, with_stat_cell};
ghost use Rattle.lq_stats.specs.declared.cell.StatCell.TheVariants as cell;

use crate::cell::StatCell;
use crate::column::StatColumn;
use crate::kind::StatKind;
use lq_records::Micro;
use lq_schema::Val;

/// What is kept of the cells of a statistic in a group.
#[derive(Clone, Copy)]
pub enum Total {
    /// How many cells are marked.
    Count(u64),
    /// The sum of the numbers.
    Sum(i128),
    /// The least number, where there is one.
    Min(Option<i128>),
    /// The greatest number, where there is one.
    Max(Option<i128>),
    /// What the average is made of.
    Avg(Mean),
}

/// What an average is made of.
#[derive(Clone, Copy)]
pub struct Mean {
    /// The sum of the numbers.
    pub sum: i128,
    /// How many numbers there are.
    pub count: u64,
}

impl Total {
    /// What is kept of no cells.
    pub fn new(kind: StatKind) -> Total
        ensures { result ≡ total_of kind [] }
    {
        match kind {
            StatKind::Count => Total::Count(0),
            StatKind::Sum => Total::Sum(0),
            StatKind::Min => Total::Min(None),
            StatKind::Max => Total::Max(None),
            StatKind::Avg => Total::Avg(Mean { sum: 0, count: 0 }),
        }
    }

    /// What is kept with one cell more.
    pub fn with(self, cell: StatCell) -> Total
        requires small { IsSmall self }
        requires sized { IsSized cell }
        ensures { result ≡ with_stat_cell self cell }
    {
        match (self, cell) {
            (Total::Count(count), StatCell::Counted(true)) => Total::Count(count + 1),
            (Total::Sum(sum), StatCell::Number(number)) => Total::Sum(sum + number),
            (Total::Min(least), StatCell::Number(number)) => Total::Min(Some(lesser(
                least, number,
            ))),
            (Total::Max(greatest), StatCell::Number(number)) => {
                Total::Max(Some(greater(greatest, number)))
            }
            (Total::Avg(mean), StatCell::Number(number)) => Total::Avg(Mean {
                sum: mean.sum + number,
                count: mean.count + 1,
            }),
            (same, _) => same,
        }
    }

    /// What is kept with the cells of the marked rows more.
    pub fn with_column(self, marks: &[bool], column: &StatColumn) -> Total
        requires long { length (column_cells column.now) ≡ length marks.now }
        requires room { HasRoomForRows (length marks.now) self }
        requires sized { AllByRecursion IsSized (column_cells column.now) }
        ensures { result ≡ with_column marks.now self (column_cells column.now) }
    {
        match column {
            StatColumn::Marks(counted) => self.with_marks(marks, counted),
            StatColumn::Numbers(numbers) => self.with_numbers(marks, numbers),
        }
    }

    fn with_marks(self, marks: &[bool], counted: &[bool]) -> Total
        requires long { length counted.now ≡ length marks.now }
        requires room { HasRoomForRows (length marks.now) self }
        ensures { result ≡ with_column marks.now self (map cell.Counted counted.now) }
    {
        match self {
            Total::Count(count) => Total::Count(count + marked_by_both(marks, counted)),
            Total::Sum(_) | Total::Min(_) | Total::Max(_) | Total::Avg(_) => self,
        }
    }

    fn with_numbers(self, marks: &[bool], numbers: &[i128]) -> Total
        requires long { length numbers.now ≡ length marks.now }
        requires room { HasRoomForRows (length marks.now) self }
        requires sized { AllByRecursion IsSized (map cell.Number numbers.now) }
        ensures { result ≡ with_column marks.now self (map cell.Number numbers.now) }
    {
        let mut total = self;
        for (i, mark) in marks.iter().enumerate() {
            if *mark {
                total = total.with(StatCell::Number(numbers[i]));
            }
        }
        total
    }

    /// The value of the statistic.
    pub fn value(self) -> Val<'static>
        requires { IsSmall self }
        ensures { meaning_of result ≡ total_value self }
    {
        match self {
            Total::Count(count) => Val::Int(i128::from(count)),
            Total::Sum(sum) => Val::Int(sum),
            Total::Min(extreme) | Total::Max(extreme) => Val::Int(extreme.unwrap_or(0)),
            Total::Avg(mean) => Val::Micro(mean.average()),
        }
    }
}

impl Mean {
    /// The average, 0 over no numbers.
    fn average(self) -> Micro
        requires { unsigned_abs self.sum ≤ 2 ^ 104 }
        ensures { result.millionths ≡ average self.sum self.count }
    {
        if self.count == 0 {
            return Micro { millionths: 0 };
        }
        Micro::quotient(self.sum, self.count)
    }
}

/// How many rows are marked by both. There is no branch in the loop, so that it counts many rows at
/// once.
fn marked_by_both(marks: &[bool], counted: &[bool]) -> u64
    requires { length counted.now ≡ length marks.now }
    ensures both { result ≡ marked_by_both marks.now counted.now }
    ensures few { result ≤ length marks.now }
{
    let mut both = 0;
    for i in 0..marks.len() {
        both += u64::from(marks[i] & counted[i]);
    }
    both
}

fn lesser(least: Option<i128>, number: i128) -> i128
    ensures { result ≡ lesser least number }
{
    match least {
        Some(least) => least.min(number),
        None => number,
    }
}

fn greater(greatest: Option<i128>, number: i128) -> i128
    ensures { result ≡ greater greatest number }
{
    match greatest {
        Some(greatest) => greatest.max(number),
        None => number,
    }
}
