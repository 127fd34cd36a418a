ghost use Rattle.std.specs.Prelude.{◌≡◌};
ghost use Rattle.lq_commands.specs.Orders.{order_of};
ghost use Rattle.lq_commands.specs.Reading.{ReadsOrder};

use crate::command::act_of;
use lq_events::Act;
use lq_records::{Base, Text, clean_text};
use lq_text::bracketed_second;
use std::alloc::{AllocError, Global};

/// An external command as its line says it.
#[derive(Drop)]
pub struct Order {
    /// The second that the line names, counted from the beginning of 1970. It is below 10 ^ 12.
    pub time: u64,
    /// The command as it was written, after the second and the blanks that follow it. Each byte at
    /// which no valid character begins is U+FFFD.
    pub text: Text,
    /// What the command does.
    pub act: Act,
}

/// Why a line gives no order.
#[derive(Drop)]
pub enum CommandErr {
    /// The line doesn't begin with `[`, 1 to 12 digits and `]`.
    NoTime,
    /// Out of memory.
    Memory,
}

impl From<AllocError> for CommandErr {
    ghost use Rattle.lq_commands.specs.declared.order.CommandErr.TheVariants.{Memory};

    ghost from_gives = { λ _ e. e ≡ Memory };

    fn from(_: AllocError) -> Self {
        CommandErr::Memory
    }
}

/// The order of a command line `[seconds] WORD;field;field...`.
///
/// Blanks after the `]` are dropped, all others are kept. The fields stand between semicolons; a
/// last field that is a text has all that follows, semicolons too. In the other commands what
/// follows the last field is ignored. Words and names are compared byte by byte.
///
/// The act is `Unknown` where no command has the word, a field is missing (only a check result's
/// output may be: it is then empty), a field that should be a number isn't one or more digits below
/// 2 ^ 64, a start or an end has more than 12 digits, no such host or service is in the base, or
/// the code of a check's result is above 2 for a host and above 3 for a service.
///
/// The errors are `NoTime`, exactly where the line doesn't begin with `[`, 1 to 12 digits and `]`,
/// and `Memory`, out of memory.
pub fn read_command(alloc: Global, base: &Base, line: &[u8]) -> Result<Order, CommandErr>
    ensures { ReadsOrder result (order_of base.now line.now) }
{
    let Some((time, start)) = bracketed_second(line) else {
        return Err(CommandErr::NoTime);
    };
    let text = clean_text(alloc, &line[start..])?;
    let act = act_of(alloc, base, text.as_str())?;
    Ok(Order { time, text, act })
}
