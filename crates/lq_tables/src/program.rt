ghost use Rattle.std.specs.Prelude.{◌≡◌, IfOk, IsOk};
ghost use Rattle.std.specs.Option.{IfSome, IsSome};
ghost use Rattle.lq_columns.specs.Plain.{HasNumbers, HasTexts};
ghost use Rattle.lq_live.specs.State.{State};
ghost use Rattle.lq_schema.specs.Kinds.{own_kind, program_kind, schema_kind};
ghost use Rattle.lq_schema.specs.Names.{full_name};
ghost use Rattle.lq_schema.specs.Value.{Number, Words, meaning_of};
ghost use Rattle.lq_tables.specs.Light.{IsLight};
ghost use Rattle.lq_tables.specs.Parts.{program_cell, program_part, schema_cell, type_name};
ghost use Rattle.lq_schema.specs.declared.columns.OwnColumn.TheVariants as own;

use crate::row::Row;
use crate::schema::Entry;
use lq_columns::{empty_number, empty_text, empty_value, flag};
use lq_live::Live;
use lq_records::{Memory, Text};
use lq_schema::{Col, ColKind, OwnColumn, ProgramColumn, SchemaColumn, Val, column_name, kind};
use std::alloc::Global;

// ---- the program

/// The number of a column on the program, None where it is a text. 0 in every row but that of the
/// status table.
pub(crate) fn program_number(live: &Live, row: &Row, column: ProgramColumn) -> Option<i128>
    ensures value { IfSome result (λ number.
        program_part live.now.state row.now column ≡ Number number) }
    ensures given { HasNumbers (program_kind column) → IsSome result }
{
    let Row::Status = row else {
        return empty_number(OwnColumn::Program(column).kind());
    };
    match column {
        ProgramColumn::EnableNotifications => Some(flag(live.notifications())),
        ProgramColumn::NumHosts => Some(live.base().hosts.len() as i128),
        ProgramColumn::NumServices => Some(live.base().services.len() as i128),
        ProgramColumn::PresentSecond => Some(i128::from(live.now())),
        ProgramColumn::ProgramVersion => None,
    }
}

/// The text of a column on the program, None where it is a number. Empty in every row but that of
/// the status table.
pub(crate) fn program_text(row: &Row, column: ProgramColumn) -> Option<&'static str>
    ensures value { (s : State) → IfSome result (λ text.
        program_part s row.now column ≡ Words text.now) }
    ensures given { HasTexts (program_kind column) → IsSome result }
{
    let Row::Status = row else {
        return empty_text(OwnColumn::Program(column).kind());
    };
    match column {
        ProgramColumn::ProgramVersion => Some("lqd 1"),
        _ => None,
    }
}

pub(crate) fn program_value(live: &Live, row: &Row, column: ProgramColumn) -> Val<'static>
    ensures { meaning_of result ≡ program_part live.now.state row.now column }
{
    let Row::Status = row else {
        return empty_value(OwnColumn::Program(column).kind());
    };
    match column {
        ProgramColumn::ProgramVersion => Val::Str("lqd 1"),
        ProgramColumn::EnableNotifications => Val::Int(flag(live.notifications())),
        ProgramColumn::NumHosts => Val::Int(live.base().hosts.len() as i128),
        ProgramColumn::NumServices => Val::Int(live.base().services.len() as i128),
        ProgramColumn::PresentSecond => Val::Int(i128::from(live.now())),
    }
}

// ---- the schema

/// The text of a column on a column, None where it has to be put together.
pub(crate) fn schema_text(entry: Option<Entry>, column: SchemaColumn) -> Option<&'static str>
    ensures value { IfSome result (λ text. schema_cell entry column ≡ Words text.now) }
    ensures given { IsLight (own.Schema column) → IsSome result }
{
    let Some(entry) = entry else {
        return Some("");
    };
    match column {
        SchemaColumn::Table => Some(entry.table.name()),
        SchemaColumn::Type => Some(type_name(kind(entry.column))),
        SchemaColumn::Name | SchemaColumn::Description => None,
    }
}

/// The value of a column on a column. Its name and description take memory, which is the only
/// error.
pub(crate) fn schema_value(
    alloc: Global,
    entry: Option<Entry>,
    column: SchemaColumn,
) -> Result<Val<'static>, Memory>
    ensures value { IfOk result (λ v. meaning_of v ≡ schema_cell entry column) }
    ensures plain { IsLight (own.Schema column) → IsOk result }
{
    let Some(entry) = entry else {
        return Ok(Val::Str(""));
    };
    match column {
        SchemaColumn::Name | SchemaColumn::Description => whole_name(alloc, entry.column),
        SchemaColumn::Table => Ok(Val::Str(entry.table.name())),
        SchemaColumn::Type => Ok(Val::Str(type_name(kind(entry.column)))),
    }
}

/// The name of a column with what stands before it.
fn whole_name(alloc: Global, column: Col) -> Result<Val<'static>, Memory>
    ensures { IfOk result (λ v. meaning_of v ≡ Words (full_name column)) }
{
    let name = column_name(column);
    let mut text = String::from_str(alloc, name.prefix)?;
    text.push_str(name.name)?;
    Ok(Val::Own(Text::from_string(text)?))
}

fn type_name(kind: ColKind) -> &'static str
    ensures { result.now ≡ type_name kind }
{
    match kind {
        ColKind::Int => "int",
        ColKind::Str => "string",
        ColKind::List | ColKind::Nums | ColKind::Pairs => "list",
    }
}
