ghost use Rattle.std.specs.Prelude.{◌≡◌, ◌≤◌, length};
ghost use Rattle.std.specs.List.{prefix_len};
ghost use Rattle.lq_text.specs.Blanks.{is_blank, without_blanks, without_end, without_front};

/// Whether a byte is a blank: a space or a tab.
pub fn is_blank(byte: u8) -> bool
    ensures { result ≡ is_blank byte }
{
    byte == b' ' || byte == b'\t'
}

/// The bytes without the blanks at both ends. Nothing is left where all are blanks.
pub fn trim(bytes: &[u8]) -> &[u8]
    ensures { result.now ≡ without_blanks bytes.now }
{
    trim_end(trim_start(bytes))
}

fn trim_start(bytes: &[u8]) -> &[u8]
    ensures { result.now ≡ without_front bytes.now }
{
    &bytes[blank_count(bytes)..]
}

/// How many blanks stand at the front.
pub(crate) fn blank_count(bytes: &[u8]) -> usize
    ensures count { result ≡ prefix_len is_blank bytes.now }
    ensures within { result ≤ length bytes.now }
{
    let mut count = 0;
    'blanks: while count < bytes.len() && is_blank(bytes[count]) {
        count += 1;
    }
    count
}

/// The bytes without the blanks at their end.
pub fn trim_end(bytes: &[u8]) -> &[u8]
    ensures { result.now ≡ without_end bytes.now }
{
    let mut end = bytes.len();
    'blanks: while end > 0 && is_blank(bytes[end - 1]) {
        end -= 1;
    }
    &bytes[..end]
}
