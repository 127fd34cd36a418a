ghost use Rattle.std.specs.Prelude.{◌≡◌, ◌<◌, All, IfErr, IfOk, length, map};
ghost use Rattle.std.specs.List.{AllByRecursion};
ghost use Rattle.std.specs.Str.{IsUtf8};
ghost use Rattle.lq_text.specs.Lines.{lines_of};
ghost use Rattle.lq_schema.specs.Schema.{columns_of};
ghost use Rattle.lq_request.specs.Headers.{header_lines};
ghost use Rattle.lq_request.specs.Reading.{Finds, FixesNoName, HasChosenLines, HasCode, HasEnd};
ghost use Rattle.lq_request.specs.Reading.{HasTimes, ReadsRequest, ShowsCells};
ghost use Rattle.lq_request.specs.Request.{request_in, asked_headers, asked_in, request_of_draft};
ghost use Rattle.lq_request.specs.Request.{first_line, plain};
ghost use Rattle.lq_request.specs.Request.{table_of_words};
ghost use Rattle.lq_request.specs.Stats.{IsStat};

use crate::entry::{Entries, StatEntry};
use crate::filters::Filters;
use crate::header::{Draft, header_lines};
use crate::header_err::HeaderErr;
use crate::reason::Reason;
use crate::style::{Style, reply_style};
use crate::time::Interval;
use crate::words::{as_text, is_text, words_of};
use lq_filter::Filter;
use lq_records::{Base, Format, Items, Memory, Refusal, Separators, Text};
use lq_schema::{Col, Names, Table, column_at, column_count, table};
use lq_text::next_line;
use std::alloc::{AllocError, Global};

/// What a query asks. By default it asks for no columns of `hosts`, and says nothing else.
#[derive(Drop, Default)]
pub struct Request {
    /// The table that is asked.
    pub table: Table,
    /// The columns, in the order of the answer; with statistics, those that rows have to have in
    /// common to be counted together. Where no line names columns they are all, and none with
    /// statistics.
    pub columns: Items<Col>,
    /// Whether a line of the columns' names comes first: what the last `ColumnHeaders` line says;
    /// without one, true exactly where no line names columns or statistics.
    pub head: bool,
    /// Which rows are shown. `Filter` lines on `time` of `statehist` aren't among its tests: the
    /// window stands for them.
    pub filter: Filter,
    /// The statistics of the rows, in the order of their lines; none where rows are shown.
    pub stats: Items<StatEntry>,
    /// How many rows are shown at most, the first ones. None where no `Limit` line says it.
    pub limit: Option<u64>,
    /// The format of the reply's body: what the last `OutputFormat` line says, else csv.
    pub format: Format,
    /// The separators of csv: what the last `Separators` line says, else the usual ones.
    pub separators: Separators,
    /// Whether a line of 16 bytes with the code and the length comes first.
    pub fixed16: bool,
    /// Whether the connection goes on after the reply.
    pub keep: bool,
    /// The name of the contact who sees the reply: what the last `AuthUser` line says, without the
    /// blanks around it. It may be one that no contact has. None where no line says it.
    pub user: Option<Text>,
    /// The first second of the window of time, in seconds since 1970, at most 1,000,000,000,000. In
    /// `statehist` and `log` it is the latest that a `Filter` line on `time` says which no `And`,
    /// `Or` or `Negate` takes; 0 where none says it, and in other tables.
    pub from: u64,
    /// The first second after the window of time, in seconds since 1970, at most
    /// 1,000,000,000,000. In `statehist` and `log` it is the earliest that such a line says. Where
    /// none says it, in `statehist` it is None, which stands for the present second, and else
    /// 1,000,000,000,000, as in other tables.
    pub until: Option<u64>,
    /// The names that rows have to have. For now there are none.
    pub names: Names,
}

/// Why a message gives no request.
#[derive(Drop)]
pub enum ReadErr {
    /// The message is refused; the reply is this refusal, in the style of the message.
    Refused {
        refusal: Refusal,
        fixed16: bool,
        keep: bool,
    },
    /// Out of memory.
    Memory,
}

/// What a message asks of a base, or its refusal: the message as `next_message` of `Cut` gives it.
/// It is read up to its first empty line.
///
/// The first line decides first: 400 `not UTF-8`; 452 `invalid request` where its first word isn't
/// `GET`; 451 `missing table name`; 404 `unknown table: <word>`; 400 `extra words after the table
/// name`. Then the first header line with a fault does, and in it the first of these: 400 `not
/// UTF-8`; `too many headers` in the 257th; `line without a colon`; `unknown header: <name>`; `bad
/// value for <header>`; `aggregate not supported: <word>`; 450 `unknown column: <word>`; `unknown
/// operator: <word>`; `operator not allowed for <column>`, also for an aggregate of a column that
/// has no numbers; `not a number: <value>`; `bad pattern`; `too many patterns` at the 17th of all
/// lines `Filter` and `Stats`; `stack too short for <header>`; `aggregate in <header>`; `time
/// filter inside a group` where `And`, `Or` or `Negate` takes a `Filter` line on the column `time`
/// of `statehist`. Last, after all lines, comes 400 `time filter missing` where no `Filter` line on
/// that column says when the history begins.
///
/// A value is bad where `Columns` has no word, a switch isn't `on` or `off`, `ResponseHeader` isn't
/// `fixed16` or `off`, `OutputFormat` isn't `csv`, `CSV` or `json`, `Separators` isn't four numbers
/// of 0 to 255, any other number hasn't 64 bits without a sign, `Filter` or `Stats` has no
/// operator, or `Stats` has not exactly one word after that of an aggregate. A `Filter` line can't
/// have `!=` on `time` of `statehist`. All refusals have the style that `reply_style` gives.
#[tactic(auto, unfolding(crate::specs::Request::request_in))]
pub fn read_request(alloc: Global, b: &[u8], _base: &Base) -> Result<Request, ReadErr>
    ensures asked { ReadsRequest result (request_in b.now) }
    ensures stats { IfOk result (λ request. All IsStat request.stats) }
    ensures cells { IfOk result ShowsCells }
    ensures times { IfOk result HasTimes }
    ensures end { IfOk result HasEnd }
    // No row that the filter chooses is outside the window.
    ensures lines { IfOk result HasChosenLines }
    ensures names { IfOk result FixesNoName }
    ensures code { IfErr result HasCode }
{
    let style = reply_style(b);
    match asked_in(alloc, style, b) {
        Ok(request) => Ok(request),
        Err(HeaderErr::Refused(reason)) => match reason.refusal(alloc) {
            Ok(refusal) => Err(ReadErr::Refused {
                refusal,
                fixed16: style.fixed16,
                keep: style.keep,
            }),
            Err(AllocError) => Err(ReadErr::Memory),
        },
        Err(HeaderErr::Memory) => Err(ReadErr::Memory),
    }
}

/// What a message asks, replied to in a style.
#[tactic(auto, unfolding(crate::specs::Request::asked_in))]
fn asked_in(alloc: Global, style: Style, message: &[u8]) -> Result<Request, HeaderErr>
    ensures asked { Finds result (asked_in style message.now) }
    ensures stats { IfOk result (λ request. All IsStat request.stats) }
    ensures cells { IfOk result ShowsCells }
    ensures times { IfOk result HasTimes }
    ensures end { IfOk result HasEnd }
    ensures lines { IfOk result HasChosenLines }
    ensures names { IfOk result FixesNoName }
{
    let Some((end, next)) = next_line(message, 0) else {
        return Err(HeaderErr::Refused(Reason::InvalidRequest));
    };
    let table = first_line(alloc, &message[..end])?;
    asked_headers(alloc, plain(alloc, style, table), &message[next..])
}

/// What header lines ask beside a draft.
fn asked_headers(alloc: Global, draft: Draft, bytes: &[u8]) -> Result<Request, HeaderErr>
    ensures asked { Finds result (asked_headers (header_lines 1 (lines_of bytes.now) draft)) }
    ensures stats { IfOk result (λ request. All IsStat request.stats) }
    ensures cells { IfOk result ShowsCells }
    ensures times { IfOk result HasTimes }
    ensures end { IfOk result HasEnd }
    ensures lines { IfOk result HasChosenLines }
    ensures names { IfOk result FixesNoName }
{
    let draft = header_lines(alloc, draft, bytes)?;
    request_of_draft(alloc, draft)
}

/// A query of a table without header lines.
fn plain(alloc: Global, style: Style, table: Table) -> Draft
    ensures { result ≡ plain style table }
{
    let interval = Interval::whole();
    Draft {
        request: Request {
            table,
            fixed16: style.fixed16,
            keep: style.keep,
            from: interval.from,
            until: interval.until,
            ..Request::default()
        },
        names: None,
        filters: Filters::new(alloc),
        stats: Entries::new(alloc),
        patterns: 0,
    }
}

/// The table that a message's first line asks.
fn first_line(alloc: Global, line: &[u8]) -> Result<Table, HeaderErr>
    ensures { Finds result (first_line line.now) }
{
    if !is_text(line) {
        return Err(HeaderErr::Refused(Reason::NotUtf8));
    }
    let words = words_of(alloc, line)?;
    let Some((get, more)) = words.split_first() else {
        return Err(HeaderErr::Refused(Reason::InvalidRequest));
    };
    if *get != b"GET".as_slice() {
        return Err(HeaderErr::Refused(Reason::InvalidRequest));
    }
    table_of_words(alloc, more)
}

/// The table that the words after `GET` name.
fn table_of_words(alloc: Global, words: &[&[u8]]) -> Result<Table, HeaderErr>
    requires { AllByRecursion IsUtf8 (map (λ word. word.now) words.now) }
    ensures { Finds result (table_of_words (map (λ word. word.now) words.now)) }
{
    let Some((word, more)) = words.split_first() else {
        return Err(HeaderErr::Refused(Reason::MissingTable));
    };
    let word = as_text(word);
    let Some(table) = table(word) else {
        return Err(HeaderErr::Refused(Reason::UnknownTable(Text::new(alloc, word)?)));
    };
    match more.split_first() {
        None => Ok(table),
        Some(_) => Err(HeaderErr::Refused(Reason::ExtraWords)),
    }
}

/// The request of a query that is read whole, or why it is refused after all.
fn request_of_draft(alloc: Global, draft: Draft) -> Result<Request, HeaderErr>
    ensures same { Finds result (request_of_draft draft) }
    ensures stats { IfOk result (λ request. All IsStat request.stats) }
    ensures cells { IfOk result ShowsCells }
    ensures times { IfOk result HasTimes }
    ensures end { IfOk result HasEnd }
    ensures lines { IfOk result HasChosenLines }
    ensures names { IfOk result FixesNoName }
{
    let mut request = draft.request;
    let shows_all = request.columns.is_empty() && draft.stats.is_empty();
    let interval = Interval::of(request.table, draft.filters.bounds(request.table))?;
    request.from = interval.from;
    request.until = interval.until;
    request.names = Names::default();
    request.filter = draft.filters.finish(alloc)?;
    request.stats = draft.stats.finish(alloc)?;
    request.head = draft.names.unwrap_or(shows_all);
    if shows_all {
        request.columns = all_columns(alloc, request.table)?;
    }
    Ok(request)
}

fn all_columns(alloc: Global, table: Table) -> Result<Items<Col>, Memory>
    ensures all { IfOk result (λ columns. columns ≡ columns_of table) }
    ensures some { IfOk result (λ columns. 0 < length columns) }
{
    let mut columns = Items::default();
    for i in 0..column_count(table) {
        columns.push(alloc, column_at(table, i))?;
    }
    Ok(columns)
}
