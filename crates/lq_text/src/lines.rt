ghost use Rattle.std.specs.Prelude.{◌≡◌, ◌<◌, ◌≤◌, ◌↔◌, [], length, take, IsNone, IfSome};
ghost use Rattle.std.specs.Str.Lines.{strip_carriage_return};
ghost use Rattle.lq_text.specs.Lines.{IsFirstLine, IsLineAt};

use memchr::memchr;

/// The line that begins at the place `at`: the place where its text ends, and the place where the
/// next line begins. Places count bytes from the front of `b`. The text is without the line feed
/// and one carriage return before that. A last line may lack its line feed, and then keeps a
/// carriage return at its end. None exactly where `at` is the end of the bytes.
pub fn next_line(b: &[u8], at: usize) -> Option<(usize, usize)>
    requires { at ≤ length b.now }
    ensures none { IsNone result ↔ (at ≡ length b.now) }
    ensures some { IfSome result (λ line. IsLineAt b.now at line.0 line.1) }
{
    let (end, next) = first_line(&b[at..])?;
    Some((at + end, at + next))
}

/// The length of the first line's text, and of the whole line.
fn first_line(bytes: &[u8]) -> Option<(usize, usize)>
    ensures none { IsNone result ↔ (bytes.now ≡ []) }
    ensures some { IfSome result (λ line. IsFirstLine bytes.now line.0 line.1) }
{
    match memchr(b'\n', bytes) {
        Some(feed) => Some((text_length(bytes, feed), feed + 1)),
        None if bytes.is_empty() => None,
        None => Some((bytes.len(), bytes.len())),
    }
}

/// The length of a first line's text, where the line feed stands at `feed`.
fn text_length(bytes: &[u8], feed: usize) -> usize
    requires { feed < length bytes.now }
    ensures within { result ≤ feed }
    ensures text { strip_carriage_return (take feed bytes.now) ≡ take result bytes.now }
{
    if feed > 0 && bytes[feed - 1] == b'\r' {
        feed - 1
    } else {
        feed
    }
}
