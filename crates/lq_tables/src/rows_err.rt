use std::alloc::AllocError;

/// Why there are no rows.
#[derive(Drop)]
pub enum RowsErr {
    /// They would be more than 1,000,000 slices of histories.
    TooMany,
    /// Out of memory.
    Memory,
}

impl From<AllocError> for RowsErr {
    ghost use Rattle.std.specs.Prelude.{◌≡◌};
    ghost use Rattle.lq_tables.specs.declared.rows_err.RowsErr.TheVariants.{Memory};

    ghost from_gives = { λ _ error. error ≡ Memory };

    fn from(_: AllocError) -> Self {
        RowsErr::Memory
    }
}
