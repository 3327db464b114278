//! Places in texts.
ghost use Rattle.std.specs.Prelude.{◌≡◌, ◌≤◌, ◌+◌, length, not};
ghost use Rattle.std.specs.List.{count_by, suffix_len};
ghost use Rattle.cg_image_text.specs.Places.{is_line_feed, place_behind};

/// A place in a text, counted from 1.
#[derive(Clone, Copy, Debug, PartialEq, Eq)]
pub struct Place {
    /// The number of its line.
    pub line: usize,
    /// The number of its byte in the line.
    pub column: usize,
}

/// Returns the number of line feeds among `bytes`.
fn line_feeds(bytes: &[u8]) -> usize
    ensures count { result ≡ count_by is_line_feed bytes.now }
    ensures within { result ≤ length bytes.now }
{
    bytes.iter().filter(|byte| **byte == b'\n').count()
}

/// Returns the number of `bytes` after the last line feed.
fn last_line_length(bytes: &[u8]) -> usize
    ensures count { result ≡ suffix_len (λ b. not (is_line_feed b)) bytes.now }
    ensures within { result ≤ length bytes.now }
{
    let mut start = bytes.len();
    while 0 < start && bytes[start - 1] != b'\n' {
        start -= 1;
    }
    bytes.len() - start
}

/// Returns the place after the first `count` bytes of `text`, or after all of them where there are fewer.
#[tactic(auto, unfolding(crate::specs::Places::place_behind))]
pub(crate) fn place_behind(text: &[u8], count: usize) -> Place
    ensures { result ≡ place_behind text.now count }
{
    let front = &text[..count.min(text.len())];
    Place {
        line: line_feeds(front) + 1,
        column: last_line_length(front) + 1,
    }
}
