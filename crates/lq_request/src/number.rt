ghost use Rattle.std.specs.Prelude.{◌≡◌};
ghost use Rattle.lq_request.specs.Numbers.{natural_read, number_value};
ghost use Rattle.lq_request.specs.Reading.{Finds};

use crate::header_err::{HeaderErr, well_formed};
use lq_text::{read_u64, trim};
use std::alloc::Global;

/// The number of 64 bits that the value of a header says.
pub fn number_value(alloc: Global, name: &str, value: &str) -> Result<u64, HeaderErr>
    ensures { Finds result (number_value name.now value.now) }
{
    well_formed(alloc, name, natural(trim(value.as_bytes())))
}

/// The number that digits say, where it has 64 bits.
pub fn natural(digits: &[u8]) -> Option<u64>
    ensures { result ≡ natural_read digits.now }
{
    read_u64(digits)
}
