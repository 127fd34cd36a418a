ghost use Rattle.std.specs.Prelude.{◌≡◌};
ghost use Rattle.std.specs.Option.{IfSome, IsSome};
ghost use Rattle.lq_schema.specs.Value.{Number, Words, empty_value, meaning_of};
ghost use Rattle.lq_columns.specs.Cells.{flag};
ghost use Rattle.lq_columns.specs.Plain.{HasNumbers, HasTexts};

use lq_records::Items;
use lq_schema::{ColKind, Val};

/// 1 where something holds, else 0.
pub fn flag(holds: bool) -> i128
    ensures { Number result ≡ flag holds }
{
    if holds { 1 } else { 0 }
}

/// The value of a cell without an object, by the kind of its column: 0, an empty text or an empty
/// list. It takes no memory.
pub fn empty_value(kind: ColKind) -> Val<'static>
    ensures { meaning_of result ≡ empty_value kind }
{
    match kind {
        ColKind::Int => Val::Int(0),
        ColKind::Str => Val::Str(""),
        ColKind::List => Val::List(Items::default()),
        ColKind::Nums => Val::Nums(Items::default()),
        ColKind::Pairs => Val::Pairs(Items::default()),
    }
}

/// The number of a cell without an object, None where its column has no numbers.
#[inline]
pub fn empty_number(kind: ColKind) -> Option<i128>
    ensures value { IfSome result (λ number. empty_value kind ≡ Number number) }
    ensures given { HasNumbers kind → IsSome result }
{
    match kind {
        ColKind::Int => Some(0),
        ColKind::Str | ColKind::List | ColKind::Nums | ColKind::Pairs => None,
    }
}

/// The text of a cell without an object, None where its column has no single texts.
#[inline]
pub fn empty_text(kind: ColKind) -> Option<&'static str>
    ensures value { IfSome result (λ text. empty_value kind ≡ Words text.now) }
    ensures given { HasTexts kind → IsSome result }
{
    match kind {
        ColKind::Str => Some(""),
        ColKind::Int | ColKind::List | ColKind::Nums | ColKind::Pairs => None,
    }
}
