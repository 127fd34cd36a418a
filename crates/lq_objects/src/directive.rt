ghost use Rattle.std.specs.Prelude.{◌≡◌};
ghost use Rattle.std.specs.List.{starts_with};
ghost use Rattle.std.specs.Option.{option_copied};
ghost use Rattle.lq_objects.specs.Blocks.{directive, value_of};
ghost use Rattle.lq_objects.specs.Faults.{is_bad, is_bad_number, is_template, number_between};
ghost use Rattle.lq_objects.specs.Needed.{directive_word};
ghost use Rattle.lq_objects.specs.Objects.{is_variable};

use crate::kind::BlockKind;
use crate::known::Directive;
use crate::line::Line;
use lq_text::{read_u64, trim};

/// The most checks that may have to find an object in trouble. One more is a bad number.
pub(crate) const MOST_ATTEMPTS: u32 = 1_000_000;

/// The value of a directive's line.
pub(crate) fn value_of<'a>(name: &[u8], text: &'a [u8]) -> &'a [u8]
    ensures { result.now ≡ value_of name.now text.now }
{
    trim(&text[name.len().min(text.len())..])
}

/// The value of a directive. Of several lines the last decides.
pub(crate) fn directive<'a>(wanted: Directive, lines: &[Line<'a>]) -> Option<&'a [u8]>
    ensures { option_copied result ≡ directive (directive_word wanted) lines.now }
{
    lines
        .iter()
        .rev()
        .find(|line| line.is_directive(wanted))
        .map(|line| value_of(wanted.word(), line.text()))
}

/// The number that a value says, where it is in a range.
#[inline(never)]
pub(crate) fn number_between(least: u32, most: u32, value: &[u8]) -> Option<u32>
    ensures { result ≡ number_between least most value.now }
{
    match read_u64(value) {
        Some(number) if u64::from(least) <= number && number <= u64::from(most) => {
            Some(number as u32)
        }
        _ => None,
    }
}

/// Whether a line is a directive with a number that isn't in its range.
#[inline(always)]
fn is_bad(least: u32, most: u32, number: Directive, line: &Line<'_>) -> bool
    ensures { result ≡ is_bad least most (directive_word number) line.now.text }
{
    line.is_directive(number)
        && number_between(least, most, value_of(number.word(), line.text())).is_none()
}

/// Whether a line in a block of a kind has a number that isn't in its range.
pub(crate) fn is_bad_number(kind: BlockKind, line: &Line<'_>) -> bool
    ensures { result ≡ is_bad_number kind line.now.text }
{
    kind.has_numbers()
        && (is_bad(1, MOST_ATTEMPTS, Directive::MaxCheckAttempts, line)
            || is_bad(0, 1, Directive::NotificationsEnabled, line))
}

/// Whether a line stands in files that aren't flattened alone.
pub(crate) fn is_template(line: &Line<'_>) -> bool
    ensures { result ≡ is_template line.now.text }
{
    line.is_directive(Directive::Use) || line.is_directive(Directive::Register)
}

/// Whether a line is a custom variable.
pub(crate) fn is_variable(text: &[u8]) -> bool
    ensures { result ≡ is_variable text.now }
{
    text.starts_with(b"_".as_slice())
}
