ghost use Rattle.std.specs.Prelude.{◌≡◌, ◌≤◌, length, IfOk};
ghost use Rattle.std.specs.List.{before_first, position_or_len, prefix_len};
ghost use Rattle.std.specs.Str.{IsUtf8, is_utf8};
ghost use Rattle.lq_text.specs.Blanks.{is_blank, without_end, without_front, words_of};
ghost use Rattle.lq_request.specs.Filters.{after_word};
ghost use Rattle.lq_request.specs.Words.{texts};

use lq_records::Memory;
use lq_text::{is_blank, trim_end};
use std::alloc::Global;
use std::str;

/// The words of a line: what stands between blanks.
pub fn words_of(alloc: Global, line: &[u8]) -> Result<Vec<&[u8]>, Memory>
    ensures { IfOk result (λ words. texts words ≡ words_of line.now) }
{
    line.split(|byte| is_blank(*byte))
        .filter(|word| !word.is_empty())
        .collect(alloc)
}

/// Whether bytes are UTF-8.
pub fn is_text(bytes: &[u8]) -> bool
    ensures { result ≡ is_utf8 bytes.now }
{
    match str::from_utf8(bytes) {
        Ok(_) => true,
        Err(_) => false,
    }
}

/// A word of a text, as text.
pub fn as_text(word: &[u8]) -> &str
    requires { IsUtf8 word.now }
    ensures { result.now ≡ word.now }
{
    match str::from_utf8(word) {
        Ok(text) => text,
        Err(_) => unreachable!(),
    }
}

/// How many blanks stand at the front of the bytes.
pub fn blank_length(bytes: &[u8]) -> usize
    ensures front { result ≡ prefix_len is_blank bytes.now }
    ensures within { result ≤ length bytes.now }
{
    let mut at = 0;
    'blanks: while at < bytes.len() && is_blank(bytes[at]) {
        at += 1;
    }
    at
}

/// The text without the blanks at its front.
pub fn without_front(text: &str) -> &str
    ensures { result.now ≡ without_front text.now }
{
    let bytes = text.as_bytes();
    as_text(&bytes[blank_length(bytes)..])
}

/// The text without the blanks at its end.
pub fn without_end(text: &str) -> &str
    ensures { result.now ≡ without_end text.now }
{
    as_text(trim_end(text.as_bytes()))
}

/// The word at the front of a text, up to its first blank, and what follows the blanks there.
pub fn split_word(text: &str) -> (&str, &str)
    ensures word { result.0.now ≡ before_first is_blank text.now }
    ensures rest { result.1.now ≡ after_word text.now }
{
    let bytes = text.as_bytes();
    let end = word_length(bytes);
    if end == bytes.len() {
        return (text, "");
    }
    let word = as_text(&bytes[..end]);
    let rest = as_text(&bytes[end + 1..]);
    (word, without_front(rest))
}

/// How many bytes stand before the first blank.
fn word_length(bytes: &[u8]) -> usize
    ensures front { result ≡ position_or_len is_blank bytes.now }
    ensures within { result ≤ length bytes.now }
{
    let mut at = 0;
    'word: while at < bytes.len() && !is_blank(bytes[at]) {
        at += 1;
    }
    at
}
