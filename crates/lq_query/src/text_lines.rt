ghost use Rattle.std.specs.Prelude.{◌∷◌, ◌≤◌, ◌⊎◌, [], IfOk, IsOkUnless, length, map, take};
ghost use Rattle.lq_columns.specs.Plain.{HasTexts};
ghost use Rattle.lq_output.specs.declared.error.WriteErr.TheVariants.{Memory};
ghost use Rattle.lq_schema.specs.Kinds.{host_kind, own_kind, service_kind};
ghost use Rattle.lq_schema.specs.declared.columns.OwnColumn.TheVariants as own;
ghost use Rattle.lq_tables.specs.About.{IsHost, IsService};
ghost use Rattle.lq_tables.specs.Cells.{own_cell};
ghost use Rattle.lq_tables.specs.Light.{IsLight};
ghost use Rattle.lq_query.specs.Lines.{HasLines, seen_cells};

use crate::sight::Sight;
use lq_output::{LineTexts, WriteErr, Writer};
use lq_schema::{Col, HostColumn, OwnColumn, ServiceColumn};
use lq_tables::{Row, host_text, row_text, service_text};

/// The texts of a column of hosts.
#[derive(Drop)]
struct HostTexts<'a> {
    sight: Sight<'a>,
    column: HostColumn,
}

impl LineTexts for HostTexts<'_> {
    type Row = Row;

    ghost cell = { λ texts row. own_cell texts.sight.live.now.state texts.sight.view.now row
        (own.Host texts.column) };

    ghost gives = { λ texts row. HasTexts (host_kind texts.column)
        × (IsHost texts.sight.live.now.state row ⊎ IsService texts.sight.live.now.state row) };

    #[inline(always)]
    fn text(&self, row: &Row) -> Option<&str> {
        host_text(self.sight.live, row, self.column)
    }
}

/// The texts of a column of services.
#[derive(Drop)]
struct ServiceTexts<'a> {
    sight: Sight<'a>,
    column: ServiceColumn,
}

impl LineTexts for ServiceTexts<'_> {
    type Row = Row;

    ghost cell = { λ texts row. own_cell texts.sight.live.now.state texts.sight.view.now row
        (own.Service texts.column) };

    ghost gives = { λ texts row. HasTexts (service_kind texts.column)
        × IsService texts.sight.live.now.state row };

    #[inline(always)]
    fn text(&self, row: &Row) -> Option<&str> {
        service_text(self.sight.live, row, self.column)
    }
}

/// The texts of any other column.
#[derive(Drop)]
struct RowTexts<'a> {
    sight: Sight<'a>,
    column: Col,
}

impl LineTexts for RowTexts<'_> {
    type Row = Row;

    ghost cell = { λ texts row. seen_cells texts.sight row texts.column };

    ghost gives = { λ texts _. HasTexts (own_kind texts.column.own) × IsLight texts.column.own };

    #[inline]
    fn text(&self, row: &Row) -> Option<&str> {
        row_text(self.sight.live, row, self.column, self.sight.view)
    }
}

/// Adds the lines of the first rows where one column of texts is shown, as many as the writer takes
/// at once, and says how many they are: the caller writes the others. Names and descriptions have a
/// loop each, so that none of these asks at each row which column it is.
#[inline(always)]
pub(crate) fn push_text_lines(
    sight: &Sight<'_>,
    writer: &mut Writer,
    rows: &[Row],
    column: Col,
) -> Result<usize, WriteErr>
    ensures within { IfOk result (λ count. count ≤ length rows.now) }
    ensures lines { IfOk result (λ count. HasLines writer.old writer.new
        (map (λ row. seen_cells sight.now row column ∷ []) (take count rows.now))) }
    ensures memory { IsOkUnless result Memory }
{
    match column.own {
        OwnColumn::Host(HostColumn::Name) => push_hosts(sight, writer, rows, HostColumn::Name),
        OwnColumn::Host(own) => push_hosts(sight, writer, rows, own),
        OwnColumn::Service(ServiceColumn::Description) => {
            push_services(sight, writer, rows, ServiceColumn::Description)
        }
        OwnColumn::Service(own) => push_services(sight, writer, rows, own),
        _ => push_others(sight, writer, rows, column),
    }
}

/// The same for a column of hosts. Where the call names the column, so does the loop.
#[inline(always)]
fn push_hosts(
    sight: &Sight<'_>,
    writer: &mut Writer,
    rows: &[Row],
    column: HostColumn,
) -> Result<usize, WriteErr>
    ensures within { IfOk result (λ count. count ≤ length rows.now) }
    ensures lines { IfOk result (λ count. HasLines writer.old writer.new (map (λ row. own_cell
        sight.now.live.now.state sight.now.view.now row (own.Host column) ∷ [])
        (take count rows.now))) }
    ensures memory { IsOkUnless result Memory }
{
    let texts = HostTexts {
        sight: *sight,
        column,
    };
    writer.text_lines(&texts, rows)
}

/// The same for a column of services.
#[inline(always)]
fn push_services(
    sight: &Sight<'_>,
    writer: &mut Writer,
    rows: &[Row],
    column: ServiceColumn,
) -> Result<usize, WriteErr>
    ensures within { IfOk result (λ count. count ≤ length rows.now) }
    ensures lines { IfOk result (λ count. HasLines writer.old writer.new (map (λ row. own_cell
        sight.now.live.now.state sight.now.view.now row (own.Service column) ∷ [])
        (take count rows.now))) }
    ensures memory { IsOkUnless result Memory }
{
    let texts = ServiceTexts {
        sight: *sight,
        column,
    };
    writer.text_lines(&texts, rows)
}

/// The same for any column.
#[inline(never)]
fn push_others(
    sight: &Sight<'_>,
    writer: &mut Writer,
    rows: &[Row],
    column: Col,
) -> Result<usize, WriteErr>
    ensures within { IfOk result (λ count. count ≤ length rows.now) }
    ensures lines { IfOk result (λ count. HasLines writer.old writer.new
        (map (λ row. seen_cells sight.now row column ∷ []) (take count rows.now))) }
    ensures memory { IsOkUnless result Memory }
{
    let texts = RowTexts {
        sight: *sight,
        column,
    };
    writer.text_lines(&texts, rows)
}
