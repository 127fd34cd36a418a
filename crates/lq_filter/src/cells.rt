ghost use Rattle.std.specs.Prelude.{◌≡◌, ℕ, IfOk, IfSome, List, bytes_eq};
ghost use Rattle.std.specs.List.{list_any};
ghost use Rattle.lq_schema.specs.Value.{Number, Texts, Value, Words, meaning_of};
ghost use Rattle.lq_schema.specs.declared.columns.Col.{Col};

use lq_records::Memory;
use lq_schema::{Col, Val};
use std::alloc::Global;

/// The cells of a row.
pub trait Cells {
    /// Which columns it has.
    ghost has: { Self → Col → Type 0 };

    /// The value of each column.
    ghost cell: { Self → Col → Value };

    /// The value of a column. The only error is out of memory.
    fn get(&self, alloc: Global, c: Col) -> Result<Val<'_>, Memory>
        requires { has self.now c }
        ensures { IfOk result (λ value. meaning_of value ≡ cell self.now c) };

    /// The number in a column, where it is found without memory. It may be None for any column.
    fn number(&self, c: Col) -> Option<i128>
        ensures { IfSome result (λ number. cell self.now c ≡ Number number) };

    /// The text in a column, where it is borrowed as it stands. It may be None for any column.
    fn text(&self, c: Col) -> Option<&str>
        ensures { IfSome result (λ text. cell self.now c ≡ Words text.now) };

    /// Whether the list of texts in a column has an element, where that is found without memory. It
    /// may be None for any column.
    fn contains(&self, c: Col, text: &str) -> Option<bool>
        ensures { IfSome result (λ found. (texts : List (List ℕ))
            × (cell self.now c ≡ Texts texts)
            × (found ≡ list_any (λ element. bytes_eq element text.now) texts)) }
    {
        None
    }
}
