ghost use Rattle.std.specs.Prelude.{◌≡◌, ok_or};
ghost use Rattle.lq_request.specs.Reading.{Finds};

use crate::reason::Reason;
use lq_records::Text;
use std::alloc::{AllocError, Global};

/// Why a part of a message can't be read.
#[derive(Drop)]
pub enum HeaderErr {
    /// The message is refused.
    Refused(Reason),
    /// Out of memory.
    Memory,
}

impl From<AllocError> for HeaderErr {
    ghost use Rattle.lq_request.specs.declared.header_err.HeaderErr.TheVariants.{Memory};

    ghost from_gives = { λ _ e. e ≡ Memory };

    fn from(_: AllocError) -> Self {
        HeaderErr::Memory
    }
}

/// What the value of the header with this name says; None stands for one that isn't well formed.
pub fn well_formed<T>(alloc: Global, name: &str, said: Option<T>) -> Result<T, HeaderErr>
    ensures { Finds result (ok_or said (Reason.BadValue name.now)) }
{
    match said {
        Some(said) => Ok(said),
        None => Err(HeaderErr::Refused(Reason::BadValue(Text::new(alloc, name)?))),
    }
}
