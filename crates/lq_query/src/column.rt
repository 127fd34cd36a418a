ghost use Rattle.std.specs.Prelude.{◌≡◌, IfOk};
ghost use Rattle.lq_schema.specs.Kinds.{own_kind};

use lq_records::Memory;
use lq_schema::{Col, ColKind, kind};
use std::alloc::Global;
use std::marker::Model;

/// A column that a reply shows, with the kind of its values, which is found once and not again at
/// each cell. Contracts see it as the column.
#[derive(Drop)]
pub struct ShownColumn {
    column: Col,
    kind: ColKind,
}

impl Model for ShownColumn {
    ghost use Rattle.std.specs.Prelude.{◌≡◌};
    ghost use Rattle.lq_schema.specs.Kinds.{own_kind};
    ghost use Rattle.lq_schema.specs.declared.columns.Col.{Col};

    ghost Value = { Col };

    ghost view = { λ shown. shown.column };

    ghost invariant = { λ shown. shown.kind ≡ own_kind shown.column.own };
}

impl ShownColumn {
    fn of(column: Col) -> Self
        ensures { result ≡ column }
    {
        ShownColumn {
            column,
            kind: kind(column),
        }
    }

    /// The column.
    pub fn column(&self) -> Col
        ensures { result ≡ self.now }
    {
        self.column
    }

    /// What the values of the column are.
    pub fn kind(&self) -> ColKind
        ensures { result ≡ own_kind self.now.own }
    {
        self.kind
    }
}

/// The columns that a reply shows, in order. The only error is out of memory.
pub fn shown_columns(alloc: Global, columns: &[Col]) -> Result<Vec<ShownColumn>, Memory>
    ensures { IfOk result (λ shown. shown.items ≡ columns.now) }
{
    let mut shown = Vec::with_capacity(alloc, columns.len())?;
    for column in columns {
        shown.push(ShownColumn::of(*column))?;
    }
    Ok(shown)
}
