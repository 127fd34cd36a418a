ghost use Rattle.std.specs.Prelude.{◌≡◌, ◌<◌, ◌+◌, ◌∷◌, ◌++◌, [], length, map, true, Err, IfOk};
ghost use Rattle.std.specs.Prelude.{OnOk};
ghost use Rattle.lq_output.specs.declared.error.WriteErr.TheVariants.{TooLarge};
ghost use Rattle.lq_request.specs.Reading.{ShowsCells};
ghost use Rattle.lq_schema.specs.Names.{full_name};
ghost use Rattle.lq_schema.specs.Value.{meaning_of};
ghost use Rattle.lq_query.specs.Answer.{column_names, line_of_names, stat_name, stat_names};
ghost use Rattle.lq_query.specs.Lines.{AddsCells, AreTooLarge, HasLines, IsTooLarge};

use lq_output::{WriteErr, Writer};
use lq_records::{Memory, Text};
use lq_request::Request;
use lq_schema::{Col, Val, column_name};
use std::alloc::Global;

/// Adds a line of cells in two parts.
pub fn push_line(writer: &mut Writer, front: &[Val<'_>], back: &[Val<'_>]) -> Result<(), WriteErr>
    requires { 0 < length front.now + length back.now }
    ensures lines { OnOk result (HasLines writer.old writer.new
        ((map meaning_of front.now ++ map meaning_of back.now) ∷ [])) }
    ensures large { result ≡ Err TooLarge → IsTooLarge writer.old
        ((map meaning_of front.now ++ map meaning_of back.now) ∷ []) }
{
    push_values(writer, front)?;
    push_values(writer, back)?;
    writer.end_line()
}

/// Adds cells to the open line.
fn push_values(writer: &mut Writer, cells: &[Val<'_>]) -> Result<(), WriteErr>
    ensures cells { OnOk result (AddsCells writer.old writer.new (map meaning_of cells.now)) }
    ensures begun { OnOk result (0 < length cells.now → writer.new.has_cell ≡ true) }
    ensures still { OnOk result (writer.old.has_cell ≡ true → writer.new.has_cell ≡ true) }
    ensures large { result ≡ Err TooLarge → AreTooLarge writer.old (map meaning_of cells.now) }
{
    for cell in cells {
        writer.cell(cell)?;
    }
    Ok(())
}

/// Adds the line of the names of columns and of statistics.
pub fn push_names(alloc: Global, writer: &mut Writer, request: &Request) -> Result<(), WriteErr>
    requires { ShowsCells request.now }
    ensures lines { OnOk result
        (HasLines writer.old writer.new (line_of_names request.now ∷ [])) }
    ensures large { result ≡ Err TooLarge
        → IsTooLarge writer.old (line_of_names request.now ∷ []) }
{
    let columns = names_of_columns(alloc, request.columns.as_slice())?;
    let stats = names_of_stats(alloc, request.stats.len())?;
    push_line(writer, &columns, &stats)
}

/// The whole name of each column.
fn names_of_columns(alloc: Global, columns: &[Col]) -> Result<Vec<Val<'static>>, Memory>
    ensures { IfOk result (λ names. map meaning_of names.items ≡ column_names columns.now) }
{
    let mut names = Vec::with_capacity(alloc, columns.len())?;
    for column in columns {
        names.push(Val::Own(name_of(alloc, *column)?))?;
    }
    Ok(names)
}

/// The whole name of a column.
fn name_of(alloc: Global, column: Col) -> Result<Text, Memory>
    ensures { IfOk result (λ text. text ≡ full_name column) }
{
    let name = column_name(column);
    let mut text = String::from_str(alloc, name.prefix)?;
    text.push_str(name.name)?;
    Text::from_string(text)
}

/// The names of so many statistics.
fn names_of_stats(alloc: Global, count: usize) -> Result<Vec<Val<'static>>, Memory>
    ensures { IfOk result (λ names. map meaning_of names.items ≡ stat_names 1 count) }
{
    let mut names = Vec::new(alloc);
    for place in 0..count {
        names.push(Val::Own(stat_name(alloc, place as u64 + 1)?))?;
    }
    Ok(names)
}

fn stat_name(alloc: Global, number: u64) -> Result<Text, Memory>
    ensures { IfOk result (λ text. text ≡ stat_name number) }
{
    Text::from_string(format!(in alloc; "stats_{number}")?)
}
