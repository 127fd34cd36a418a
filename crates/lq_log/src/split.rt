ghost use Rattle.std.specs.Prelude.{◌≡◌, ◌+◌, ◌^◌, ◌<◌, ◌==◌, ◌&&◌, IfSome, IsTrue, drop, length};
ghost use Rattle.std.specs.Prelude.{slice_index, take};
ghost use Rattle.std.specs.Option.{option_map};
ghost use Rattle.lq_text.specs.Blanks.{is_blank};
ghost use Rattle.lq_text.specs.Seconds.{second_of, text_after_second};
ghost use Rattle.lq_log.specs.Entries.{colon, parts_at_colon};

use lq_text::{bracketed_second, is_blank};

/// The bytes of a colon and the blank after it.
const SEPARATOR_LEN: usize = 2;

/// The second that a line begins with and the text after it. None where no `[`, 1 to 12 digits and
/// `]` stand at its front.
pub(crate) fn second_and_text(line: &str) -> Option<(u64, &str)>
    ensures second { option_map (λ found. found.0) result ≡ second_of line.now }
    ensures below { IfSome result (λ found. found.0 < 10 ^ 12) }
    ensures text { IfSome result (λ found. found.1.now ≡ text_after_second line.now) }
{
    let (second, place) = bracketed_second(line.as_bytes())?;
    Some((second, &line[place..]))
}

/// What stands before the first colon with a blank after it, and what follows that blank.
pub(crate) fn parts_at_colon(text: &str) -> Option<(&str, &str)>
    ensures { option_map (λ parts. (parts.0.now, parts.1.now)) result ≡ parts_at_colon text.now }
{
    let place = colon_place(text.as_bytes())?;
    Some((&text[..place], &text[place + SEPARATOR_LEN..]))
}

/// The place of the first colon with a blank after it.
fn colon_place(text: &[u8]) -> Option<usize>
    ensures parts { option_map (λ place. (take place text.now, drop (place + 2) text.now)) result
        ≡ parts_at_colon text.now }
    ensures colon { IfSome result (λ place. slice_index text.now place ≡ colon) }
    ensures blank { IfSome result (λ place. IsTrue (is_blank (slice_index text.now (place + 1)))) }
    ensures within { IfSome result (λ place. place + 1 < length text.now) }
{
    let mut place = 0;
    'places: while place + 1 < text.len() {
        if is_colon(text, place) {
            return Some(place);
        }
        place += 1;
    }
    None
}

/// Whether a colon with a blank after it stands at a place.
fn is_colon(text: &[u8], place: usize) -> bool
    requires { place + 1 < length text.now }
    ensures { result
        ≡ ((slice_index text.now place == colon) && is_blank (slice_index text.now (place + 1))) }
{
    text[place] == b':' && is_blank(text[place + 1])
}
