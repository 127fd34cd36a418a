use std::alloc::AllocError;

/// Why a body isn't written on.
#[derive(Drop)]
pub enum WriteErr {
    /// The body would have more than `BODY_LIMIT` bytes.
    TooLarge,
    /// Memory ran out.
    Memory,
}

impl From<AllocError> for WriteErr {
    ghost use Rattle.std.specs.Prelude.{◌≡◌};
    ghost use Rattle.lq_output.specs.declared.error.WriteErr.TheVariants.{Memory};

    ghost from_gives = { λ _ error. error ≡ Memory };

    fn from(_: AllocError) -> WriteErr {
        WriteErr::Memory
    }
}
