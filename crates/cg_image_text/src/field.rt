//! Fields, cut from a text one after another.
ghost use Rattle.std.specs.Prelude.{◌≡◌, ◌+◌, ◌≤◌, ◌<◌, [], ◌∷◌, ℕ, List, MatchOption, IfSome, length, slice_index, true};
ghost use Rattle.std.specs.List.{prefix_len};
ghost use Rattle.cg_image_text.specs.Fields.{is_blank, is_solid, is_remark, remark_length, first_field, fields_at, end_of, seen};

/// A field of a text: its bytes, and the position of the first of them, counted from 0.
#[derive(Clone, Copy)]
pub(crate) struct Piece<'a> {
    pub text: &'a [u8],
    pub place: usize,
}

/// Returns whether `byte` is a space, a tab, a line feed or a carriage return.
fn is_blank(byte: u8) -> bool
    ensures { result ≡ is_blank byte }
{
    byte == b' ' || byte == b'\t' || byte == b'\n' || byte == b'\r'
}

/// Returns whether `byte` belongs to a field where it isn't in a comment.
fn is_solid(byte: u8) -> bool
    ensures { result ≡ is_solid byte }
{
    !(is_blank(byte) || byte == b'#')
}

/// Returns the number of `bytes` with which a field continues.
fn solid_length(bytes: &[u8]) -> usize
    ensures count { result ≡ prefix_len is_solid bytes.now }
    ensures within { result ≤ length bytes.now }
{
    let mut count = 0;
    for byte in bytes {
        if !is_solid(*byte) {
            return count;
        }
        count += 1;
    }
    count
}

/// Returns the number of `bytes` with which a comment continues.
fn comment_length(bytes: &[u8]) -> usize
    ensures count { result ≡ prefix_len is_remark bytes.now }
    ensures within { result ≤ length bytes.now }
{
    let mut count = 0;
    for byte in bytes {
        if *byte == b'\n' {
            return count;
        }
        count += 1;
    }
    count
}

/// Returns the number of `bytes` that belong to a comment after `byte`, which is in no field.
#[tactic(auto, using(crate::proofs::Cutting::remark_fits))]
fn remark_length(byte: u8, bytes: &[u8]) -> usize
    ensures count { result ≡ remark_length byte bytes.now }
    ensures within { result ≤ length bytes.now }
{
    if byte == b'#' {
        comment_length(bytes)
    } else {
        0
    }
}

/// Returns the number of bytes of a blank or a comment at the front of `bytes`.
fn gap_length(bytes: &[u8]) -> usize
    requires { 0 < length bytes.now }
    ensures count { (b : ℕ) (rest : List ℕ) → bytes.now ≡ b ∷ rest → result ≡ remark_length b rest + 1 }
    ensures some { 0 < result }
    ensures within { result ≤ length bytes.now }
{
    remark_length(bytes[0], &bytes[1..]) + 1
}

/// Returns the field at the front of `bytes`, which begin at `place`.
fn first_field(bytes: &[u8], place: usize) -> Piece<'_>
    requires { 0 < length bytes.now }
    ensures first { (b : ℕ) (rest : List ℕ) → bytes.now ≡ b ∷ rest → seen result ≡ first_field b rest place }
    ensures some { place < end_of (seen result) }
    ensures within { end_of (seen result) ≤ place + length bytes.now }
{
    let more = solid_length(&bytes[1..]);
    Piece {
        text: &bytes[..more + 1],
        place,
    }
}

/// Returns the position of the first byte of a field in `bytes` from `at` on, or `at` or the length where there is
/// none.
fn past_gaps(bytes: &[u8], at: usize) -> usize
    ensures same { fields_at bytes.now result ≡ fields_at bytes.now at }
    ensures on { at ≤ result }
    ensures solid { result < length bytes.now → is_solid (slice_index bytes.now result) ≡ true }
{
    let mut place = at;
    while place < bytes.len() && !is_solid(bytes[place]) {
        place += gap_length(&bytes[place..]);
    }
    place
}

/// Cuts the next field of `bytes` from `at` on.
pub(crate) fn next_field(bytes: &[u8], at: usize) -> Option<Piece<'_>>
    ensures next { MatchOption result (fields_at bytes.now at ≡ []) (λ piece. fields_at bytes.now at ≡ seen piece ∷ fields_at bytes.now (end_of (seen piece))) }
    ensures on { IfSome result (λ piece. at < end_of (seen piece)) }
    ensures within { IfSome result (λ piece. end_of (seen piece) ≤ length bytes.now) }
{
    let place = past_gaps(bytes, at);
    if place < bytes.len() {
        Some(first_field(&bytes[place..], place))
    } else {
        None
    }
}
