ghost use Rattle.std.specs.Prelude.{◌≡◌, ◌<◌, ◌≤◌, [], true, All, Err, IfOk, OnOk, false, length};
ghost use Rattle.std.specs.Prelude.{map};
ghost use Rattle.std.specs.Option.{option_copied};
ghost use Rattle.lq_auth.specs.Rights.{view_of};
ghost use Rattle.lq_output.specs.Body.{body_limit};
ghost use Rattle.lq_output.specs.declared.error.WriteErr.TheVariants.{TooLarge};
ghost use Rattle.lq_request.specs.Reading.{ShowsCells};
ghost use Rattle.lq_request.specs.Stats.{IsStat};
ghost use Rattle.lq_query.specs.Answer.{answer_of, rows_are_too_many, first_lines};
ghost use Rattle.lq_query.specs.Answer.{with_fixed_header, large_reply, reply_of_body};
ghost use Rattle.lq_query.specs.Answer.{line_of_names, reply_body, reply_with, shown_lines};
ghost use Rattle.lq_query.specs.Answer.{with_names};
ghost use Rattle.lq_query.specs.Lines.{HasLines, IsTooLarge, rows_in, seen_cells};
ghost use Rattle.lq_query.specs.Rows.{chosen_rows};
ghost use Rattle.lq_tables.specs.declared.rows_err.RowsErr.TheVariants.{TooMany};

use crate::column::shown_columns;
use crate::line::push_names;
use crate::page::Page;
use crate::sight::Sight;
use crate::window::window_of;
use lq_auth::View;
use lq_live::Live;
use lq_output::{WriteErr, Writer, fixed16, refusal};
use lq_records::{Items, Memory, Refusal, Text};
use lq_request::Request;
use lq_steps::Steps;
use lq_tables::{Row, Rows, RowsErr, rows};
use std::alloc::{AllocError, Global};
use std::marker::Brand;
use std::sync::ledger::{Blank, Ledger};

/// The code of a reply that is given whole.
const OK: u16 = 200;

/// The code of a reply that is too large.
const TOO_LARGE: u16 = 413;

/// The reply to a query: its code, and the bytes that are written.
#[derive(Drop)]
pub struct Reply {
    /// 200, or 413 where the reply is too large.
    pub code: u16,
    /// The line of 16 bytes where the query asks for it, and the body, of 8,388,608 bytes at most;
    /// with 413 that line and a refusal, or nothing.
    pub bytes: Items<u8>,
}

/// Answers a query that shows a column or a statistic: 200 and the line of names where the query
/// asks for it, then a line for each row of the table that its user sees and its filter chooses, or
/// with statistics for each group of these rows, as many as its limit says. 413 and `reply too
/// large` where the body would have more than 8,388,608 bytes, and where the histories of all that
/// the user sees have more than 1,000,000 slices over the interval that is asked for, however few
/// of them the filter chooses. The only error is out of memory.
pub fn answer(alloc: Global, live: &Live, request: &Request) -> Result<Reply, Memory>
    requires cells { ShowsCells request.now }
    requires stats { All IsStat request.now.stats }
    ensures { IfOk result (λ reply. reply ≡ answer_of request.now live.now.state) }
{
    let view = view_of(alloc, live, request)?;
    seen_reply(alloc, &Sight { live, view: &view }, request)
}

/// The same by what the query sees.
fn seen_reply(alloc: Global, sight: &Sight<'_>, request: &Request) -> Result<Reply, Memory>
    requires cells { ShowsCells request.now }
    requires stats { All IsStat request.now.stats }
    ensures { IfOk result
        (λ reply. reply ≡ reply_with request.now (rows_in sight.now request.now)) }
{
    match seen_rows::<Brand>(alloc, sight, request, Blank::new(1)) {
        Ok(rows) => rows_reply(alloc, sight, request, rows.as_slice()),
        Err(RowsErr::TooMany) => large_reply(alloc, request.fixed16),
        Err(RowsErr::Memory) => Err(AllocError),
    }
}

/// The rows of the query's table that it sees. `TooMany` exactly where they are too many.
fn seen_rows<G: Ledger>(
    alloc: Global,
    sight: &Sight<'_>,
    request: &Request,
    blank: Blank,
) -> Result<Rows, RowsErr>
    requires name { blank.name ≡ G.name }
    requires parts { blank.parts ≡ G.parts }
    requires some { 0 < blank.parts }
    ensures rows { IfOk result
        (λ rows. map (seen_cells sight.now) rows ≡ rows_in sight.now request.now) }
    ensures few { IfOk result (λ rows.
        rows_are_too_many request.now.table (rows_in sight.now request.now) ≡ false) }
    ensures many { result ≡ Err TooMany
        → rows_are_too_many request.now.table (rows_in sight.now request.now) ≡ true }
{
    let window = window_of(alloc, sight.live, request)?;
    let mut steps = Steps::<G>::new(blank);
    rows(
        alloc,
        sight.live,
        request.table,
        &window,
        sight.view,
        &mut steps,
    )
}

/// The reply that some rows make: the lines of those that the query's filter chooses, or of their
/// groups.
fn rows_reply(
    alloc: Global,
    sight: &Sight<'_>,
    request: &Request,
    rows: &[Row],
) -> Result<Reply, Memory>
    requires cells { ShowsCells request.now }
    requires stats { All IsStat request.now.stats }
    ensures { IfOk result (λ reply. reply ≡ reply_of_body request.now.fixed16
        (reply_body request.now (map (seen_cells sight.now) rows.now))) }
{
    match body(alloc, sight, request, rows) {
        Ok(body) => whole_reply(alloc, request.fixed16, body),
        Err(WriteErr::TooLarge) => large_reply(alloc, request.fixed16),
        Err(WriteErr::Memory) => Err(AllocError),
    }
}

/// The body of a reply. `TooLarge` exactly where it would have too many bytes.
fn body(
    alloc: Global,
    sight: &Sight<'_>,
    request: &Request,
    rows: &[Row],
) -> Result<Items<u8>, WriteErr>
    requires cells { ShowsCells request.now }
    requires stats { All IsStat request.now.stats }
    ensures body { IfOk result
        (λ body. body ≡ reply_body request.now (map (seen_cells sight.now) rows.now)) }
    ensures fits { IfOk result (λ body. length body ≤ body_limit) }
    ensures large { result ≡ Err TooLarge
        → body_limit < length (reply_body request.now (map (seen_cells sight.now) rows.now)) }
{
    let mut writer = Writer::new(alloc, request.format, request.separators)?;
    push_head(alloc, &mut writer, request)?;
    push_lines(alloc, &mut writer, sight, request, rows)?;
    writer.finish()
}

/// Adds the line of names where it is asked for.
fn push_head(alloc: Global, writer: &mut Writer, request: &Request) -> Result<(), WriteErr>
    requires { ShowsCells request.now }
    ensures lines { OnOk result (HasLines writer.old writer.new
        (with_names request.now.head (line_of_names request.now) [])) }
    ensures large { result ≡ Err TooLarge → IsTooLarge writer.old
        (with_names request.now.head (line_of_names request.now) []) }
{
    if request.head {
        push_names(alloc, writer, request)
    } else {
        Ok(())
    }
}

/// Adds the lines of the rows, or those of the groups.
fn push_lines(
    alloc: Global,
    writer: &mut Writer,
    sight: &Sight<'_>,
    request: &Request,
    rows: &[Row],
) -> Result<(), WriteErr>
    requires cells { ShowsCells request.now }
    requires stats { All IsStat request.now.stats }
    ensures lines { OnOk result (HasLines writer.old writer.new (first_lines request.now.limit
        (shown_lines request.now (chosen_rows request.now.filter
        (map (seen_cells sight.now) rows.now))))) }
    ensures large { result ≡ Err TooLarge → IsTooLarge writer.old (first_lines request.now.limit
        (shown_lines request.now (chosen_rows request.now.filter
        (map (seen_cells sight.now) rows.now)))) }
{
    let columns = shown_columns(alloc, request.columns.as_slice())?;
    let page = Page {
        alloc,
        sight: *sight,
        columns: &columns,
    };
    if request.stats.is_empty() {
        page.push_shown(writer, request, rows)
    } else {
        page.push_groups(writer, request, rows)
    }
}

/// What the query sees of a state.
fn view_of(alloc: Global, live: &Live, request: &Request) -> Result<View, Memory>
    ensures { IfOk result (λ view. view ≡ view_of live.now.state.base request.now.user) }
{
    View::of(alloc, live.base(), user_of(request))
}

/// The name of the contact who sees the reply.
fn user_of(request: &Request) -> Option<&str>
    ensures { option_copied result ≡ request.now.user }
{
    match &request.user {
        Some(user) => Some(user.as_str()),
        None => None,
    }
}

/// The reply with a body.
fn whole_reply(alloc: Global, fixed16: bool, body: Items<u8>) -> Result<Reply, Memory>
    requires { length body ≤ body_limit }
    ensures { IfOk result (λ reply. reply ≡ record
        { code = 200; bytes = with_fixed_header fixed16 body }) }
{
    let bytes = if fixed16 {
        with_header(alloc, body)?
    } else {
        body
    };
    Ok(Reply { code: OK, bytes })
}

/// A body with the line of 16 bytes before it.
fn with_header(alloc: Global, body: Items<u8>) -> Result<Items<u8>, Memory>
    requires { length body ≤ body_limit }
    ensures { IfOk result (λ bytes. bytes ≡ with_fixed_header true body) }
{
    // One copy, since the length is known when the body is whole. Room for the line at the front of
    // the body would make each clause on the body speak of 16 bytes that aren't its own.
    let mut bytes = Vec::with_capacity(alloc, body.len() + 16)?;
    bytes.extend_from_slice(&fixed16(OK, body.len() as u64))?;
    bytes.extend_from_slice(body.as_slice())?;
    Ok(Items::from_vec(bytes))
}

/// The reply in place of one that is too large.
fn large_reply(alloc: Global, fixed16: bool) -> Result<Reply, Memory>
    ensures { IfOk result (λ reply. reply ≡ large_reply fixed16) }
{
    let refused = Refusal {
        code: TOO_LARGE,
        text: Text::new(alloc, "reply too large")?,
    };
    Ok(Reply {
        code: TOO_LARGE,
        bytes: refusal(alloc, &refused, fixed16)?,
    })
}
