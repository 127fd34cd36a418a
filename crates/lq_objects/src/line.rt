ghost use Rattle.std.specs.Prelude.{◌≡◌, ℕ, IsTrue, ◌<◌, ◌≤◌, ◌==◌, ◌||◌, ◌&&◌, IfOk};
ghost use Rattle.std.specs.Prelude.{length};
ghost use Rattle.std.specs.Prelude.{slice_index, take};
ghost use Rattle.std.specs.List.{list_any};
ghost use Rattle.std.specs.Option.{option_copied};
ghost use Rattle.lq_text.specs.Blanks.{is_blank};
ghost use Rattle.lq_objects.specs.Blocks.{is_closing, is_named, is_opening_text, is_telling};
ghost use Rattle.lq_objects.specs.Blocks.{one_word, opened_word, parts_of};
ghost use Rattle.lq_objects.specs.Words.{word_length};
ghost use Rattle.lq_objects.specs.Needed.{directive_word, is_bound, is_known, is_needed};
ghost use Rattle.lq_objects.specs.Objects.{base_of, base_of_parts, variable_name};
ghost use Rattle.lq_records.specs.declared.base.Rules.{Rules};
ghost use Rattle.lq_objects.specs.declared.fault.ObjectsErr.TheVariants.{At};

use crate::directive::is_variable;
use crate::fault::{ObjectsErr, ObjectsWhat};
use crate::known::Directive;
use lq_text::{is_blank, next_line, trim};
use std::alloc::{AllocError, Global};
use std::marker::Model;

/// How many bytes of a file there are for each line that is needed, about.
const BYTES_A_LINE: usize = 48;

/// A line that says something: its number in the file, from 1, and its text without the blanks at
/// both ends.
// 32 bytes. With a number of 32 bits it would take 24, and set a limit that no file of the program
// meets. The value isn't kept: only that of a line that decides is looked for.
#[derive(Drop)]
pub(crate) struct Line<'a> {
    number: u64,
    /// Which known directive the text is. It is found once.
    directive: Option<Directive>,
    text: &'a [u8],
}

impl<'a> Model for Line<'a> {
    ghost use Rattle.std.specs.Prelude.{◌≡◌};
    ghost use Rattle.lq_objects.specs.Blocks.{Line};
    ghost use Rattle.lq_objects.specs.Needed.{known_directive};

    ghost Value = { Line };

    ghost view = { λ line. record { number = line.number; text = line.text.now } };

    ghost invariant = { λ line. line.directive ≡ known_directive line.text.now };
}

impl<'a> Line<'a> {
    pub(crate) fn new(number: u64, text: &'a [u8]) -> Self
        ensures { result ≡ record { number = number; text = text.now } }
    {
        Line {
            number,
            directive: Directive::of_text(text),
            text,
        }
    }

    pub(crate) fn number(&self) -> u64
        ensures { result ≡ self.now.number }
    {
        self.number
    }

    pub(crate) fn text(&self) -> &'a [u8]
        ensures { result.now ≡ self.now.text }
    {
        self.text
    }

    /// A fault at the line, as an error.
    pub(crate) fn fault(&self, what: ObjectsWhat) -> ObjectsErr
        ensures { result ≡ At self.now.number what }
    {
        ObjectsErr::At {
            line: self.number,
            what,
        }
    }

    /// Whether the line is a known directive.
    pub(crate) fn is_directive(&self, directive: Directive) -> bool
        ensures { result ≡ is_named (directive_word directive) self.now.text }
    {
        self.directive == Some(directive)
    }

    /// The word at the front.
    pub(crate) fn word(&self) -> &'a [u8]
        ensures { result.now ≡ variable_name self.now.text }
    {
        &self.text[..word_length(self.text)]
    }

    /// Whether the line is needed where it stands in a block.
    pub(crate) fn is_needed(&self) -> bool
        ensures { result ≡ is_needed self.now }
    {
        self.is_known() || is_variable(self.text) || self.is_bound()
    }

    /// Whether the line is a directive that says something of an object of some kind.
    fn is_known(&self) -> bool
        ensures { result ≡ is_known self.now.text }
    {
        self.directive.is_some()
    }

    /// Whether the line opens or closes a block.
    fn is_bound(&self) -> bool
        ensures { result ≡ is_bound self.now }
    {
        self.is_closing() || self.opened_word().is_some()
    }

    /// Whether the line closes a block.
    pub(crate) fn is_closing(&self) -> bool
        ensures { result ≡ is_closing self.now }
    {
        self.text == b"}".as_slice()
    }

    /// The word after `define`, where the line opens a block.
    #[inline(always)]
    pub(crate) fn opened_word(&self) -> Option<&'a [u8]>
        ensures { option_copied result ≡ opened_word self.now.text }
    {
        opened_word(self.text)
    }
}

/// Lines of a file that say the same base as all of them, or the same first fault: those that
/// aren't needed in their block are left out. Outside a block each line that says something is
/// there.
pub(crate) fn needed_lines(alloc: Global, b: &[u8]) -> Result<Vec<Line<'_>>, AllocError>
    ensures { IfOk result (λ lines. (rules : Rules)
        → base_of_parts rules (parts_of lines.items) ≡ base_of b.now rules) }
{
    let mut lines = Vec::with_capacity(alloc, b.len() / BYTES_A_LINE)?;
    let mut at = 0;
    let mut number = 0;
    let mut within = false;
    'lines: while let Some((end, next)) = next_line(b, at) {
        number += 1;
        let text = trim(&b[at..end]);
        if is_telling(text) {
            let line = Line::new(number, text);
            if !within || line.is_needed() {
                within = !line.is_closing();
                lines.push(line)?;
            }
        }
        at = next;
    }
    Ok(lines)
}

/// Whether a text is the directive with a name. What follows the name is looked at first, since it
/// alone tells it for most lines.
#[inline(always)]
pub(crate) fn is_named(name: &[u8], text: &[u8]) -> bool
    ensures { result ≡ is_named name.now text.now }
{
    has_end_at(text, name.len()) && name == front(text, name.len())
}

/// So many bytes from the front, or all where there are fewer.
fn front(text: &[u8], most: usize) -> &[u8]
    ensures { result.now ≡ take most text.now }
{
    &text[..most.min(text.len())]
}

/// Whether a word of so many bytes may stand at the front: a blank follows it, or nothing does.
fn has_end_at(text: &[u8], at: usize) -> bool
    ensures { at ≤ length text.now
        → result ≡ ((length text.now == at) || is_blank (slice_index text.now at)) }
{
    match text.get(at) {
        Some(byte) => is_blank(*byte),
        None => at == text.len(),
    }
}

/// How many bytes the word at the front has.
fn word_length(text: &[u8]) -> usize
    ensures value { result ≡ word_length text.now }
    ensures within { result ≤ length text.now }
{
    let mut end = 0;
    'word: while end < text.len() && !is_blank(text[end]) {
        end += 1;
    }
    end
}

/// Whether a text says something: it isn't empty and doesn't begin with `#`.
fn is_telling(text: &[u8]) -> bool
    ensures { (number : ℕ) → result ≡ is_telling (record { number = number; text = text.now }) }
{
    !text.is_empty() && text[0] != b'#'
}

#[inline(always)]
fn opened_word(text: &[u8]) -> Option<&[u8]>
    ensures { option_copied result ≡ opened_word text.now }
{
    if is_opening(text) {
        single_word(&text[6..text.len() - 1])
    } else {
        None
    }
}

#[inline(always)]
fn is_opening(text: &[u8]) -> bool
    ensures value { result ≡ is_opening_text text.now }
    ensures long { IsTrue result → 6 < length text.now }
{
    // The last byte comes first, since it alone tells most lines.
    text.len() > 6
        && text[text.len() - 1] == b'{'
        && is_blank(text[6])
        && text.starts_with(b"define".as_slice())
}

/// The one word of a text, where it has exactly one.
#[inline(never)]
fn single_word(text: &[u8]) -> Option<&[u8]>
    ensures { option_copied result ≡ one_word text.now }
{
    let word = trim(text);
    if word.is_empty() || has_blank(word) {
        None
    } else {
        Some(word)
    }
}

fn has_blank(text: &[u8]) -> bool
    ensures { result ≡ list_any is_blank text.now }
{
    text.iter().any(|byte| is_blank(*byte))
}
