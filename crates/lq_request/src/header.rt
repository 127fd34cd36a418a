ghost use Rattle.std.specs.Prelude.{◌≡◌, ◌++◌, OnOk, map, ok_or, position};
ghost use Rattle.std.specs.List.{AllByRecursion};
ghost use Rattle.std.specs.Str.{IsUtf8};
ghost use Rattle.lq_text.specs.Lines.{lines_of};
ghost use Rattle.lq_request.specs.Headers.{columns_of_words, columns_value, header_lines, switch};
ghost use Rattle.lq_request.specs.Headers.{with_columns, with_header, with_header_at, with_line};
ghost use Rattle.lq_request.specs.Reading.{Finds, Leaves};
ghost use Rattle.lq_request.specs.Style.{is_colon};

use crate::entry::Entries;
use crate::filters::Filters;
use crate::format::{format_value, separators_value};
use crate::header_err::{HeaderErr, well_formed};
use crate::number::number_value;
use crate::reason::Reason;
use crate::request::Request;
use crate::style::{colon_place, switch_value};
use crate::words::{as_text, is_text, without_end, without_front, words_of};
use lq_records::{Items, Memory, Text};
use lq_schema::{Col, Table, column};
use lq_text::next_line;
use std::alloc::Global;

/// The most header lines that a query may have. The next one is refused.
pub const MOST_HEADERS: usize = 256;

/// A query as far as it is read: the request that the lines so far ask, of which `columns` are the
/// ones that they name, and what they say of the line of names.
#[derive(Drop)]
pub struct Draft {
    /// The request. Its fields `head`, `filter`, `stats`, `from`, `until` and `names` say nothing
    /// yet.
    pub request: Request,
    /// Whether a line of the columns' names comes first, None where no line speaks of it.
    pub names: Option<bool>,
    /// The filters that stand so far.
    pub filters: Filters,
    /// The entries of the statistics so far.
    pub stats: Entries,
    /// How many patterns the lines so far look for.
    pub patterns: usize,
}

impl Draft {
    /// Adds what one more header says. `ResponseHeader` and `KeepAlive` leave all as it was, since
    /// the style speaks of them, and so do `Localtime` and `Timelimit`, which say nothing.
    // Headers are no enum of their own: each would have two more places there, and an arm here says
    // its name, its value and its field already.
    #[tactic(auto, unfolding(crate::specs::Headers::with_header))]
    fn add(&mut self, alloc: Global, name: &str, value: &str) -> Result<(), HeaderErr>
        ensures { Leaves result self.new (with_header name.now value.now self.old) }
    {
        match name {
            "Columns" => self.add_columns(alloc, name, value)?,
            "ColumnHeaders" => self.names = Some(switch(alloc, "on", name, value)?),
            "Filter" => self.add_test(alloc, name, value)?,
            "And" => self.join(alloc, name, false, value)?,
            "Or" => self.join(alloc, name, true, value)?,
            "Negate" => self.negate(alloc, name)?,
            "Stats" => self.add_stats(alloc, name, value)?,
            "StatsAnd" => self.join_stats(alloc, name, false, value)?,
            "StatsOr" => self.join_stats(alloc, name, true, value)?,
            "StatsNegate" => self.stats.negate(alloc, name)?,
            "Limit" => self.request.limit = Some(number_value(alloc, name, value)?),
            "OutputFormat" => self.request.format = format_value(alloc, name, value)?,
            "Separators" => self.request.separators = separators_value(alloc, name, value)?,
            "AuthUser" => {
                let user = without_end(without_front(value));
                self.request.user = Some(Text::new(alloc, user)?);
            }
            "ResponseHeader" => {
                switch(alloc, "fixed16", name, value)?;
            }
            "KeepAlive" => {
                switch(alloc, "on", name, value)?;
            }
            "Localtime" | "Timelimit" => {
                number_value(alloc, name, value)?;
            }
            _ => return Err(HeaderErr::Refused(Reason::UnknownHeader(Text::new(alloc, name)?))),
        }
        Ok(())
    }

    /// Adds the columns that a value names.
    fn add_columns(&mut self, alloc: Global, name: &str, value: &str) -> Result<(), HeaderErr>
        ensures { Leaves result self.new (with_columns name.now value.now self.old) }
    {
        let more = columns_value(alloc, self.request.table, name, value)?;
        push_all(alloc, &mut self.request.columns, more.as_slice())?;
        Ok(())
    }

    /// Adds the header of a line, by the line's number from 1.
    fn add_line(&mut self, alloc: Global, number: usize, line: &[u8]) -> Result<(), HeaderErr>
        ensures { Leaves result self.new (with_line number line.now self.old) }
    {
        if !is_text(line) {
            return Err(HeaderErr::Refused(Reason::NotUtf8));
        }
        if number > MOST_HEADERS {
            return Err(HeaderErr::Refused(Reason::TooManyHeaders));
        }
        self.add_parts(alloc, line)
    }

    /// Adds the header of a line, whose name goes up to its first colon.
    fn add_parts(&mut self, alloc: Global, line: &[u8]) -> Result<(), HeaderErr>
        requires { IsUtf8 line.now }
        ensures { Leaves result self.new
            (with_header_at line.now (position is_colon line.now) self.old) }
    {
        let Some(colon) = colon_place(line) else {
            return Err(HeaderErr::Refused(Reason::NoColon));
        };
        let name = as_text(&line[..colon]);
        let value = as_text(&line[colon + 1..]);
        self.add(alloc, name, value)
    }
}

fn push_all(alloc: Global, columns: &mut Items<Col>, more: &[Col]) -> Result<(), Memory>
    ensures { OnOk result (columns.new ≡ columns.old ++ more.now) }
{
    for column in more {
        columns.push(alloc, *column)?;
    }
    Ok(())
}

/// What header lines say beside a draft, up to the first empty one, or the reason of the first line
/// that can't be read.
pub fn header_lines(alloc: Global, draft: Draft, bytes: &[u8]) -> Result<Draft, HeaderErr>
    ensures { Finds result (header_lines 1 (lines_of bytes.now) draft) }
{
    let mut draft = draft;
    let mut number = 0;
    let mut at = 0;
    'lines: while let Some((end, next)) = next_line(bytes, at) {
        let line = &bytes[at..end];
        if line.is_empty() {
            break;
        }
        number += 1;
        draft.add_line(alloc, number, line)?;
        at = next;
    }
    Ok(draft)
}

/// What the value of a switch says, by the word that turns it on.
fn switch(alloc: Global, on: &str, name: &str, value: &str) -> Result<bool, HeaderErr>
    ensures { Finds result (switch on.now name.now value.now) }
{
    well_formed(alloc, name, switch_value(on, value.as_bytes()))
}

/// The columns that a value names, in order.
fn columns_value(
    alloc: Global,
    table: Table,
    name: &str,
    value: &str,
) -> Result<Items<Col>, HeaderErr>
    ensures { Finds result (columns_value table name.now value.now) }
{
    let words = words_of(alloc, value.as_bytes())?;
    if words.is_empty() {
        return Err(HeaderErr::Refused(Reason::BadValue(Text::new(alloc, name)?)));
    }
    columns_of_words(alloc, table, &words)
}

/// The columns that words name, or the reason of the first word that names none.
fn columns_of_words(alloc: Global, table: Table, words: &[&[u8]]) -> Result<Items<Col>, HeaderErr>
    requires { AllByRecursion IsUtf8 (map (λ word. word.now) words.now) }
    ensures { Finds result (columns_of_words table (map (λ word. word.now) words.now)) }
{
    let mut columns = Items::default();
    for word in words {
        let word = as_text(word);
        let Some(column) = column(table, word) else {
            return Err(HeaderErr::Refused(Reason::UnknownColumn(Text::new(alloc, word)?)));
        };
        columns.push(alloc, column)?;
    }
    Ok(columns)
}
