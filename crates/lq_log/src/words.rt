ghost use Rattle.std.specs.Prelude.{◌≡◌, Some, None, if◌then◌else◌, unwrap_or, []};
ghost use Rattle.lq_text.specs.Numbers.{integer_read, number_of};
ghost use Rattle.lq_log.specs.Fields.{code_of, downtime_words, flapping_words, host_states};
ghost use Rattle.lq_log.specs.Fields.{is_attempt, is_code, is_one_of, name_of_state};
ghost use Rattle.lq_log.specs.Fields.{service_states, state_named, state_types};

use lq_text::{read_i64, read_u64};

/// The most digits that an attempt is written with. A line with one of ten digits has no form.
const MOST_ATTEMPT_DIGITS: usize = 9;

/// The number of a host state's name.
pub(crate) fn host_state(name: &str) -> Option<i64>
    ensures { result ≡ state_named host_states name.now }
{
    match name {
        "UP" => Some(0),
        "DOWN" => Some(1),
        "UNREACHABLE" => Some(2),
        _ => None,
    }
}

/// The number of a service state's name.
pub(crate) fn service_state(name: &str) -> Option<i64>
    ensures { result ≡ state_named service_states name.now }
{
    match name {
        "OK" => Some(0),
        "WARNING" => Some(1),
        "CRITICAL" => Some(2),
        "UNKNOWN" => Some(3),
        _ => None,
    }
}

/// The name of a host's state, empty where it has none.
pub(crate) fn host_state_name(state: i64) -> &'static str
    ensures { result.now ≡ unwrap_or (name_of_state host_states state) [] }
{
    match state {
        0 => "UP",
        1 => "DOWN",
        2 => "UNREACHABLE",
        _ => "",
    }
}

/// The name of a service's state, empty where it has none.
pub(crate) fn service_state_name(state: i64) -> &'static str
    ensures { result.now ≡ unwrap_or (name_of_state service_states state) [] }
{
    match state {
        0 => "OK",
        1 => "WARNING",
        2 => "CRITICAL",
        3 => "UNKNOWN",
        _ => "",
    }
}

/// Whether a text is a type of state.
pub(crate) fn is_state_type(text: &str) -> bool
    ensures { result ≡ is_one_of state_types text.now }
{
    text == "SOFT" || text == "HARD"
}

/// Whether a text is what happens to a downtime.
pub(crate) fn is_downtime_word(text: &str) -> bool
    ensures { result ≡ is_one_of downtime_words text.now }
{
    text == "STARTED" || text == "STOPPED" || text == "CANCELLED"
}

/// Whether a text is what happens to flapping.
pub(crate) fn is_flapping_word(text: &str) -> bool
    ensures { result ≡ is_one_of flapping_words text.now }
{
    text == "STARTED" || text == "STOPPED" || text == "DISABLED"
}

/// The number that 1 to 9 digits say.
pub(crate) fn attempt(text: &str) -> Option<u32>
    ensures { result ≡ (if is_attempt text.now then Some (number_of text.now) else None) }
{
    let digits = text.as_bytes();
    if digits.len() > MOST_ATTEMPT_DIGITS {
        return None;
    }
    match read_u64(digits) {
        Some(number) => Some(number as u32),
        None => None,
    }
}

/// The state that one digit says, 0 to 3.
pub(crate) fn code(text: &str) -> Option<i64>
    ensures { result ≡ (if is_code text.now then Some (code_of text.now) else None) }
{
    match text.as_bytes() {
        [digit @ b'0'..=b'3'] => Some(i64::from(*digit - b'0')),
        _ => None,
    }
}

/// The number that digits say, with an optional `-` before them.
pub(crate) fn integer(text: &str) -> Option<i64>
    ensures { result ≡ integer_read text.now }
{
    read_i64(text.as_bytes())
}
