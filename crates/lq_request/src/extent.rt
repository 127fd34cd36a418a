ghost use Rattle.std.specs.Prelude.{◌≡◌, ℕ, ◌+◌, ◌<◌, ◌≤◌, true, false, Contains, List, length};
ghost use Rattle.std.specs.Prelude.{drop, take, IfNone, IfSome};
ghost use Rattle.std.specs.Bool.{OnFalse, OnTrue};
ghost use Rattle.std.specs.List.{prefix_len};
ghost use Rattle.lq_text.specs.Blanks.{is_blank};
ghost use Rattle.lq_text.specs.Lines.{line_text};
ghost use Rattle.lq_request.specs.Messages.{command_text, ends_word, front_lines, is_command};
ghost use Rattle.lq_request.specs.Messages.{is_line_of, message_of, one_empty_line};
ghost use Rattle.lq_request.specs.Extent.{IsExtent};
ghost use Rattle.lq_request.specs.Search.{AreLines, IsKnown, IsSearched};
ghost use Rattle.lq_request.specs.declared.extent.LineKind.TheVariants as line_kind;

use crate::words::blank_length;
use lq_text::{is_blank, next_line};

/// How many bytes the word `COMMAND` has, which begins the line of a command.
const COMMAND_LENGTH: usize = 7;

/// What a message is, by the first of its lines.
#[derive(Clone, Copy)]
pub enum MessageKind {
    /// It has the lines of a query.
    Query,
    /// It is the line of a command.
    Command,
    /// No line is left.
    Nothing,
}

/// Where the first message stands in the bytes.
#[derive(Clone, Copy)]
pub struct Extent {
    /// What it is.
    pub kind: MessageKind,
    /// The place where its text begins.
    pub start: usize,
    /// The place where its text ends.
    pub end: usize,
    /// The place after its end; the same as `end` where its end hasn't come.
    pub next: usize,
}

/// A line without text, or with some.
#[derive(Clone, Copy)]
enum LineKind {
    Empty,
    Text,
}

/// How far bytes were looked over: they are empty lines up to `text`, and from there on whole lines
/// of a query up to `next`; after those no line feed stands up to `seen`.
#[derive(Clone, Copy)]
pub struct Searched {
    pub text: usize,
    pub next: usize,
    pub seen: usize,
}

impl Searched {
    /// Nothing was looked over yet.
    pub fn nothing() -> Self
        ensures text { result.text ≡ 0 }
        ensures next { result.next ≡ 0 }
        ensures seen { result.seen ≡ 0 }
    {
        Searched {
            text: 0,
            next: 0,
            seen: 0,
        }
    }

    /// Whether a line feed stands after what was seen. Where none does, no message has ended.
    pub fn sees_feed(&mut self, bytes: &[u8]) -> bool
        requires { IsKnown self.old.text self.old.next self.old.seen bytes.now }
        ensures some { OnTrue result (Contains (drop self.old.seen bytes.now) 10) }
        ensures none { OnFalse result ((message_of bytes.now).ended ≡ false) }
        ensures same { self.new.next ≡ self.old.next }
        ensures known { IsKnown self.new.text self.new.next self.new.seen bytes.now }
    {
        let Some((end, next)) = next_line(bytes, self.seen) else {
            return false;
        };
        if end < next {
            return true;
        }
        self.seen = next;
        false
    }

    /// The first message of the bytes. What was looked over before isn't looked at again.
    #[tactic(auto, unfolding(crate::specs::Messages::message_of))]
    pub fn extent_of(&mut self, bytes: &[u8]) -> Extent
        requires { IsSearched self.old.text self.old.next bytes.now }
        ensures extent { IsExtent bytes.now result }
        ensures searched { IsSearched self.new.text self.new.next bytes.now }
        ensures seen { self.new.seen ≡ self.old.seen }
    {
        if self.text < self.next {
            return self.query(bytes);
        }
        let start = empty_lines_end(bytes, self.next);
        self.text = start;
        self.next = start;
        let Some((end, next)) = next_line(bytes, start) else {
            return Extent {
                kind: MessageKind::Nothing,
                start,
                end: start,
                next: start,
            };
        };
        if let Some(length) = command_length(&bytes[start..end]) {
            return Extent {
                kind: MessageKind::Command,
                start: start + length,
                end,
                next,
            };
        }
        if end == next {
            return Extent {
                kind: MessageKind::Query,
                start,
                end,
                next,
            };
        }
        self.next = next;
        self.query(bytes)
    }

    /// The query whose first lines were looked over.
    fn query(&mut self, bytes: &[u8]) -> Extent
        requires some { self.old.text < self.old.next }
        requires searched { IsSearched self.old.text self.old.next bytes.now }
        ensures extent { IsExtent bytes.now result }
        ensures searched { IsSearched self.new.text self.new.next bytes.now }
        ensures seen { self.new.seen ≡ self.old.seen }
    {
        let front = front_length(&bytes[self.next..], LineKind::Text);
        let end = self.next + front.all;
        let next = end + empty_line_length(&bytes[end..]);
        self.next += front.whole;
        Extent {
            kind: MessageKind::Query,
            start: self.text,
            end,
            next,
        }
    }
}

/// The place where the empty lines at the front end; they go on up to the place `from` at least.
fn empty_lines_end(bytes: &[u8], from: usize) -> usize
    requires within { from ≤ length bytes.now }
    requires lines { AreLines line_kind.Empty (take from bytes.now) }
    ensures within { result ≤ length bytes.now }
    ensures lines { AreLines line_kind.Empty (take result bytes.now) }
    ensures front { front_lines line_kind.Empty bytes.now ≡ take result bytes.now }
{
    from + front_length(&bytes[from..], LineKind::Empty).all
}

/// The length of `COMMAND` and its blanks at the front of a line. None where the line is no
/// command.
#[tactic(auto, unfolding(crate::specs::Messages::is_command, crate::specs::Messages::command_text))]
fn command_length(line: &[u8]) -> Option<usize>
    ensures none { IfNone result (is_command line.now ≡ false) }
    ensures some { IfSome result (λ n. is_command line.now ≡ true) }
    ensures text { IfSome result (λ n. command_text line.now ≡ drop n line.now) }
    ensures within { IfSome result (λ n. n ≤ length line.now) }
{
    let rest = line.strip_prefix(b"COMMAND".as_slice())?;
    if !ends_word(rest) {
        return None;
    }
    Some(COMMAND_LENGTH + blank_length(rest))
}

/// Whether a word ends before these bytes.
fn ends_word(rest: &[u8]) -> bool
    ensures { result ≡ ends_word rest.now }
{
    match rest.first() {
        Some(byte) => is_blank(*byte),
        None => true,
    }
}

/// The lines of a kind at the front of bytes, by their length: those with a line feed, and all.
#[derive(Clone, Copy)]
struct Front {
    whole: usize,
    all: usize,
}

/// The lines of a kind at the front of the bytes. Only a line with text can lack its line feed.
fn front_length(bytes: &[u8], kind: LineKind) -> Front
    ensures whole { AreLines kind (take result.whole bytes.now) }
    ensures front { front_lines kind bytes.now ≡ take result.all bytes.now }
    ensures order { result.whole ≤ result.all }
    ensures within { result.all ≤ length bytes.now }
    ensures empty { kind ≡ line_kind.Empty → result.whole ≡ result.all }
{
    let mut at = 0;
    'lines: while let Some((end, next)) = next_line(bytes, at) {
        if !is_of_kind(kind, end - at) {
            return Front { whole: at, all: at };
        }
        if end == next {
            return Front {
                whole: at,
                all: next,
            };
        }
        at = next;
    }
    Front { whole: at, all: at }
}

/// Whether a line whose text has this length is of a kind.
fn is_of_kind(kind: LineKind, text: usize) -> bool
    ensures { (line : List ℕ) → length (line_text line) ≡ text
        → result ≡ is_line_of kind line }
{
    match kind {
        LineKind::Empty => text == 0,
        LineKind::Text => text != 0,
    }
}

/// The length of the empty line at the front of the bytes, 0 where none stands there.
fn empty_line_length(bytes: &[u8]) -> usize
    ensures front { one_empty_line bytes.now ≡ take result bytes.now }
    ensures within { result ≤ length bytes.now }
{
    match next_line(bytes, 0) {
        Some((0, next)) => next,
        _ => 0,
    }
}
