ghost use Rattle.std.specs.Prelude.{◌≡◌, ◌≤◌, ◌++◌, IfOk};
ghost use Rattle.lq_request.specs.Reasons.{refusal_of};

use lq_records::{Memory, Refusal, Text};
use std::alloc::Global;

/// Why a message is refused. A word is as it stands in the message.
#[derive(Drop)]
pub enum Reason {
    /// The first word of the first line isn't `GET`.
    InvalidRequest,
    /// The first line has no second word.
    MissingTable,
    /// No table has this name.
    UnknownTable(Text),
    /// The first line has a third word.
    ExtraWords,
    /// A line isn't UTF-8.
    NotUtf8,
    /// There are more header lines than a query may have.
    TooManyHeaders,
    /// A header line has no colon.
    NoColon,
    /// No header has this name.
    UnknownHeader(Text),
    /// The value of the header with this name isn't well formed.
    BadValue(Text),
    /// No statistics give the aggregate with this word.
    AggregateUnsupported(Text),
    /// No column of the table has this name.
    UnknownColumn(Text),
    /// A test has a word that is no operator.
    UnknownOperator(Text),
    /// The operator of a test isn't one for the column with this name, or not with its value, or
    /// the column has no numbers for an aggregate.
    NotAllowed(Text),
    /// A test compares a column of numbers with this.
    NotNumber(Text),
    /// A test looks for a text that is no pattern.
    BadPattern,
    /// There are more patterns than a query may have.
    TooManyPatterns,
    /// The header with this name takes more filters or entries than stand, or none.
    StackTooShort(Text),
    /// The header with this name takes an entry that is an aggregate.
    AggregateIn(Text),
    /// A header takes a filter of the time of a history.
    TimeFilterInGroup,
    /// No filter says when a history begins.
    TimeFilterMissing,
}

/// A refusal by its parts: its code, the front of its text, and the word that follows it.
struct Parts<'a>(u16, &'static str, &'a str);

impl Reason {
    fn parts(&self) -> Parts<'_>
        ensures code { result.0 ≡ (refusal_of self.now).code }
        ensures digits { (100 ≤ result.0) × (result.0 ≤ 999) }
        ensures text { result.1.now ++ result.2.now ≡ (refusal_of self.now).text }
    {
        match self {
            Reason::InvalidRequest => Parts(452, "invalid request", ""),
            Reason::MissingTable => Parts(451, "missing table name", ""),
            Reason::UnknownTable(word) => Parts(404, "unknown table: ", word.as_str()),
            Reason::ExtraWords => Parts(400, "extra words after the table name", ""),
            Reason::NotUtf8 => Parts(400, "not UTF-8", ""),
            Reason::TooManyHeaders => Parts(400, "too many headers", ""),
            Reason::NoColon => Parts(400, "line without a colon", ""),
            Reason::UnknownHeader(name) => Parts(400, "unknown header: ", name.as_str()),
            Reason::BadValue(name) => Parts(400, "bad value for ", name.as_str()),
            Reason::AggregateUnsupported(word) => {
                Parts(400, "aggregate not supported: ", word.as_str())
            }
            Reason::UnknownColumn(word) => Parts(450, "unknown column: ", word.as_str()),
            Reason::UnknownOperator(word) => Parts(400, "unknown operator: ", word.as_str()),
            Reason::NotAllowed(column) => {
                Parts(400, "operator not allowed for ", column.as_str())
            }
            Reason::NotNumber(value) => Parts(400, "not a number: ", value.as_str()),
            Reason::BadPattern => Parts(400, "bad pattern", ""),
            Reason::TooManyPatterns => Parts(400, "too many patterns", ""),
            Reason::StackTooShort(name) => Parts(400, "stack too short for ", name.as_str()),
            Reason::AggregateIn(name) => Parts(400, "aggregate in ", name.as_str()),
            Reason::TimeFilterInGroup => Parts(400, "time filter inside a group", ""),
            Reason::TimeFilterMissing => Parts(400, "time filter missing", ""),
        }
    }

    /// The refusal that tells it. The only error is out of memory.
    pub fn refusal(&self, alloc: Global) -> Result<Refusal, Memory>
        ensures same { IfOk result (λ refusal. refusal ≡ refusal_of self.now) }
        ensures digits { IfOk result
            (λ refusal. (100 ≤ refusal.code) × (refusal.code ≤ 999)) }
    {
        let Parts(code, front, word) = self.parts();
        let mut text = String::from_str(alloc, front)?;
        text.push_str(word)?;
        Ok(Refusal {
            code,
            text: Text::from_string(text)?,
        })
    }
}
