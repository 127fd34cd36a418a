ghost use Rattle.std.specs.Prelude.{◌≡◌, ◌+◌, ◌<◌, ℕ, length, position, slice_index, IfSome};
ghost use Rattle.lq_text.specs.Lines.{lines_of};
ghost use Rattle.lq_request.specs.Style.{is_colon, last_switch, style_of, switch_of_line};
ghost use Rattle.lq_request.specs.Style.{switch_value};

use lq_text::{next_line, trim};

/// How the reply to a message is given, and what becomes of the connection.
#[derive(Clone, Copy)]
pub struct Style {
    /// Whether a line of 16 bytes with the code and the length comes first.
    pub fixed16: bool,
    /// Whether the connection goes on.
    pub keep: bool,
}

/// The style that a message asks for, also a refused or a too long one. Among all of its lines the
/// last one `ResponseHeader: fixed16` or `ResponseHeader: off` decides `fixed16`, and the last one
/// `KeepAlive: on` or `KeepAlive: off` decides `keep`; each is false without one.
#[tactic(auto, unfolding(crate::specs::Style::style_of))]
pub fn reply_style(b: &[u8]) -> Style
    ensures { result ≡ style_of b.now }
{
    Style {
        fixed16: last_switch(b, "ResponseHeader", "fixed16"),
        keep: last_switch(b, "KeepAlive", "on"),
    }
}

/// What the last well-formed line with a switch's name says, by the word that turns it on.
#[tactic(auto, unfolding(crate::specs::Style::last_switch))]
fn last_switch(bytes: &[u8], name: &str, on: &str) -> bool
    ensures { result ≡ last_switch name.now on.now (lines_of bytes.now) }
{
    let mut last = None;
    let mut at = 0;
    'lines: while let Some((end, next)) = next_line(bytes, at) {
        last = switch_of_line(&bytes[at..end], name, on).or(last);
        at = next;
    }
    last.unwrap_or(false)
}

/// What a line says of a switch, where it is a well-formed line of its name.
#[tactic(auto, unfolding(crate::specs::Style::switch_of_line))]
fn switch_of_line(line: &[u8], name: &str, on: &str) -> Option<bool>
    ensures { result ≡ switch_of_line name.now on.now line.now }
{
    let colon = colon_place(line)?;
    if &line[..colon] != name.as_bytes() {
        return None;
    }
    switch_value(on, &line[colon + 1..])
}

/// What a switch says: it is the word that turns it on, or `off`, with or without blanks around it.
#[tactic(auto, unfolding(crate::specs::Style::switch_value))]
pub fn switch_value(on: &str, value: &[u8]) -> Option<bool>
    ensures { result ≡ switch_value on.now value.now }
{
    let word = trim(value);
    if word == on.as_bytes() {
        Some(true)
    } else if word == b"off".as_slice() {
        Some(false)
    } else {
        None
    }
}

/// The place of the colon that ends a header's name.
pub fn colon_place(line: &[u8]) -> Option<usize>
    ensures place { result ≡ position is_colon line.now }
    ensures within { IfSome result (λ colon. colon < length line.now) }
    ensures colon { IfSome result (λ colon. slice_index line.now colon ≡ 58) }
{
    line.iter().position(|byte| *byte == b':')
}
