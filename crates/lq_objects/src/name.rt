ghost use Rattle.std.specs.Prelude.{◌≡◌, [], IfOk};
ghost use Rattle.lq_objects.specs.Names.{name_of, text_or};
ghost use Rattle.lq_objects.specs.Needed.{directive_word};

use crate::directive::directive;
use crate::kind::BlockKind;
use crate::known::Directive;
use crate::line::Line;
use crate::texts::Texts;
use lq_names::ObjectName;
use lq_records::Text;
use std::alloc::AllocError;

/// The text of a directive, or another text where it is absent.
pub(crate) fn text_or(
    texts: &Texts,
    absent: &Text,
    wanted: Directive,
    lines: &[Line<'_>],
) -> Result<Text, AllocError>
    ensures { IfOk result
        (λ text. text ≡ text_or absent.now (directive_word wanted) lines.now) }
{
    match directive(wanted, lines) {
        Some(value) => texts.text(value),
        None => absent.clone(),
    }
}

/// The text of a directive, empty where it is absent.
pub(crate) fn text_of(
    texts: &Texts,
    wanted: Directive,
    lines: &[Line<'_>],
) -> Result<Text, AllocError>
    ensures { IfOk result (λ text. text ≡ text_or [] (directive_word wanted) lines.now) }
{
    match directive(wanted, lines) {
        Some(value) => texts.text(value),
        None => Ok(Text::empty()),
    }
}

/// The name that a block's directives give its object, an absent one being empty.
pub(crate) fn name_of(
    texts: &Texts,
    kind: BlockKind,
    lines: &[Line<'_>],
) -> Result<ObjectName, AllocError>
    ensures { IfOk result (λ name. name ≡ name_of kind lines.now) }
{
    let first = text_of(texts, kind.name_directive(), lines)?;
    let second = match kind.second_directive() {
        Some(second) => text_of(texts, second, lines)?,
        None => Text::empty(),
    };
    Ok(ObjectName::new(first, second))
}
