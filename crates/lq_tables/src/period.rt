//! Time periods.

ghost use Rattle.std.specs.Prelude.{◌≡◌};
ghost use Rattle.std.specs.Option.{IfSome, IsSome, option_copied};
ghost use Rattle.lq_columns.specs.Plain.{HasNumbers, HasTexts};
ghost use Rattle.lq_live.specs.State.{State};
ghost use Rattle.lq_schema.specs.Kinds.{period_kind};
ghost use Rattle.lq_schema.specs.Value.{Number, Words, meaning_of};
ghost use Rattle.lq_tables.specs.Parts.{period_cell};

use lq_columns::{empty_number, empty_text, empty_value, flag};
use lq_live::Live;
use lq_records::Period;
use lq_schema::{OwnColumn, PeriodColumn, Val};

/// The number of a column on a time period, None where it is a text.
pub(crate) fn period_number(
    live: &Live,
    period: Option<&Period>,
    column: PeriodColumn,
) -> Option<i128>
    ensures value { IfSome result (λ number.
        period_cell live.now.state (option_copied period.entry) column ≡ Number number) }
    ensures given { HasNumbers (period_kind column) → IsSome result }
{
    let Some(period) = period else {
        return empty_number(OwnColumn::Period(column).kind());
    };
    match column {
        PeriodColumn::In => Some(flag(live.is_period_on(period.timeperiod_name.as_str()))),
        PeriodColumn::Name | PeriodColumn::Alias => None,
    }
}

/// The text of a column on a time period, None where it is a number.
pub(crate) fn period_text(period: Option<&Period>, column: PeriodColumn) -> Option<&str>
    ensures value { (s : State) → IfSome result (λ text.
        period_cell s (option_copied period.entry) column ≡ Words text.now) }
    ensures given { HasTexts (period_kind column) → IsSome result }
{
    let Some(period) = period else {
        return empty_text(OwnColumn::Period(column).kind());
    };
    match column {
        PeriodColumn::Name => Some(period.timeperiod_name.as_str()),
        PeriodColumn::Alias => Some(period.alias.as_str()),
        PeriodColumn::In => None,
    }
}

pub(crate) fn period_value<'a>(
    live: &Live,
    period: Option<&'a Period>,
    column: PeriodColumn,
) -> Val<'a>
    ensures { meaning_of result ≡ period_cell live.now.state (option_copied period.entry) column }
{
    let Some(period) = period else {
        return empty_value(OwnColumn::Period(column).kind());
    };
    match column {
        PeriodColumn::Name => Val::Str(period.timeperiod_name.as_str()),
        PeriodColumn::Alias => Val::Str(period.alias.as_str()),
        PeriodColumn::In => Val::Int(flag(live.is_period_on(period.timeperiod_name.as_str()))),
    }
}
