ghost use Rattle.std.specs.Prelude.{◌≡◌, ◌≤◌, ◌<◌, ◌+◌, ◌⊎◌, ◌∷◌, ◌++◌, [], IfOk, OnErr};
ghost use Rattle.std.specs.Prelude.{IfSome, IsSome, None, drop, length, map, take};
ghost use Rattle.std.specs.List.{flat_map};
ghost use Rattle.lq_output.specs.Body.{body_limit};
ghost use Rattle.lq_output.specs.Cells.{plain_line};
ghost use Rattle.lq_output.specs.Writing.{HasNoRoom, OfFirst};
ghost use Rattle.lq_schema.specs.Value.{Value, Words};

use crate::writer::BODY_LIMIT;
use lq_records::Separators;
use std::alloc::AllocError;

/// How many bytes a body grows by at once, at most. Lines are then written into them with no look
/// at the body.
const BLOCK: usize = 4_096;

/// From how many rows on a block is made for them. For fewer it would take more than it saves.
pub(crate) const FEWEST: usize = 16;

/// Where the texts of rows come from, of which each is a line of its own.
pub trait LineTexts {
    /// What a line is about.
    type Row;

    /// The cell of a row.
    ghost cell: { Self → Self.Row → Value };

    /// Whether a row surely gives its text.
    ghost gives: { Self → Self.Row → Type 0 };

    /// The text of a row's cell. It may give None for a row that doesn't surely give it, which is
    /// then left to another way.
    fn text(&self, row: &Self::Row) -> Option<&str>
        ensures value { IfSome result (λ text. cell self.now row.now ≡ Words text.now) }
        ensures given { gives self.now row.now → IsSome result };
}

/// How far lines were written.
#[derive(Clone, Copy)]
struct Written {
    /// How many rows have a line.
    rows: usize,
    /// Where the next line comes.
    end: usize,
}

/// Adds the lines of the first rows to a body of csv, up to the first row that gives no text or for
/// whose line there is no room. Says how many they are. After an error the body is as it was.
#[inline(always)]
pub(crate) fn push_plain_lines<T: LineTexts>(
    body: &mut Vec<u8>,
    separators: Separators,
    texts: &T,
    rows: &[T::Row],
) -> Result<usize, AllocError>
    requires { length body.old.items ≤ body_limit }
    ensures within { IfOk result (λ count. count ≤ length rows.now) }
    ensures fits { length body.new.items ≤ body_limit }
    ensures lines { IfOk result (λ count. body.new.items ≡ body.old.items
        ++ flat_map (λ row. plain_line separators (T.cell texts.now row)) (take count rows.now)) }
    ensures stop { IfOk result (λ count.
        OfFirst (drop count rows.now) (λ row. T.gives texts.now row
        → HasNoRoom (length body.new.items) (plain_line separators (T.cell texts.now row)))) }
    ensures err { OnErr result (body.new.items ≡ body.old.items) }
{
    let start = body.len();
    let mut done = 0;
    'blocks: while done < rows.len() {
        let Ok(count) = push_block(body, separators, texts, &rows[done..]) else {
            body.truncate(start);
            return Err(AllocError);
        };
        if count == 0 {
            return Ok(done);
        }
        done += count;
    }
    Ok(done)
}

/// The same for as many rows as a block has room for.
#[inline(always)]
fn push_block<T: LineTexts>(
    body: &mut Vec<u8>,
    separators: Separators,
    texts: &T,
    rows: &[T::Row],
) -> Result<usize, AllocError>
    requires { length body.old.items ≤ body_limit }
    ensures within { IfOk result (λ count. count ≤ length rows.now) }
    ensures fits { length body.new.items ≤ body_limit }
    ensures lines { IfOk result (λ count. body.new.items ≡ body.old.items
        ++ flat_map (λ row. plain_line separators (T.cell texts.now row)) (take count rows.now)) }
    ensures stop { IfOk result (λ count. count ≡ 0 →
        OfFirst rows.now (λ row. T.gives texts.now row
        → HasNoRoom (length body.new.items) (plain_line separators (T.cell texts.now row)))) }
    ensures err { OnErr result (body.new.items ≡ body.old.items) }
{
    let start = body.len();
    let end = block_end(start);
    body.resize(end, 0)?;
    let place = Place { start, separators };
    let written = write_lines(body, place, texts, rows);
    body.truncate(written.end);
    Ok(written.rows)
}

/// Where the block ends that begins at a place of a body.
fn block_end(start: usize) -> usize
    requires { start ≤ body_limit }
    ensures later { start ≤ result }
    ensures fits { result ≤ body_limit }
    ensures room { (result ≡ body_limit) ⊎ (result ≡ start + 4096) }
{
    if BODY_LIMIT - start < BLOCK {
        BODY_LIMIT
    } else {
        start + BLOCK
    }
}

/// Where lines are written.
#[derive(Clone, Copy)]
struct Place {
    /// How many bytes stand before them.
    start: usize,
    separators: Separators,
}

/// Writes the lines of the first rows at a place of some bytes, as many as these have room for, and
/// up to the first row that gives no text.
#[inline(always)]
fn write_lines<T: LineTexts>(bytes: &mut [u8], place: Place, texts: &T, rows: &[T::Row]) -> Written
    requires { place.start ≤ length bytes.old }
    ensures rows { result.rows ≤ length rows.now }
    ensures end { result.end ≤ length bytes.new }
    ensures length { length bytes.new ≡ length bytes.old }
    ensures lines { take result.end bytes.new ≡ take place.start bytes.old
        ++ flat_map (λ row. plain_line place.separators (T.cell texts.now row))
        (take result.rows rows.now) }
    ensures stop { OfFirst (drop result.rows rows.now) (λ row. T.gives texts.now row
        → length bytes.new
        < result.end + length (plain_line place.separators (T.cell texts.now row))) }
{
    let mut at = place.start;
    for (count, row) in rows.iter().enumerate() {
        let next = match texts.text(row) {
            Some(text) => write_line(bytes, at, text, place.separators.row),
            None => None,
        };
        let Some(next) = next else {
            return Written {
                rows: count,
                end: at,
            };
        };
        at = next;
    }
    Written {
        rows: rows.len(),
        end: at,
    }
}

/// Writes a text and the byte that ends its line at a place of some bytes, and says where the next
/// line comes. None where there is no room.
#[inline(always)]
fn write_line(bytes: &mut [u8], at: usize, text: &str, end: u8) -> Option<usize>
    requires { at ≤ length bytes.old }
    ensures within { IfSome result (λ next. next ≤ length bytes.new) }
    ensures line { IfSome result
        (λ next. take next bytes.new ≡ take at bytes.old ++ (text.now ++ end ∷ [])) }
    ensures length { length bytes.new ≡ length bytes.old }
    ensures none { result ≡ None → bytes.new ≡ bytes.old }
    ensures room { result ≡ None → length bytes.old ≤ at + length text.now }
{
    let text = text.as_bytes();
    if text.len() >= bytes.len() - at {
        return None;
    }
    let stop = at + text.len();
    bytes[at..stop].copy_from_slice(text);
    bytes[stop] = end;
    Some(stop + 1)
}
