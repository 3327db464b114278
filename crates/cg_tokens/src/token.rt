//! Bytes cut into tokens.
ghost use Rattle.std.specs.Prelude.{◌≡◌, ◌+◌, ◌≤◌, ◌<◌, [], ◌∷◌, ℕ, Option, List, MatchOption, IfSome, length, slice_index, false};
ghost use Rattle.std.specs.List.{prefix_len};
ghost use Rattle.cg_tokens.specs.Tokens.{is_blank, is_letter, kind_of, goes_on, is_double, is_next, more_of, first_token, end_of, seen, tokens_at};

/// The kind of a token.
#[derive(Clone, Copy, Debug, PartialEq, Eq, Drop)]
enum Kind {
    /// A letter or `_`, then letters, digits and `_`.
    Word,
    /// Digits.
    Number,
    /// Any other byte, by itself.
    Mark,
}

/// A token: its bytes, and the place of its first byte.
#[derive(Clone, Copy)]
pub struct Token<'a> {
    pub text: &'a [u8],
    pub place: usize,
}

fn is_blank(byte: u8) -> bool
    ensures { result ≡ is_blank byte }
{
    byte == b' ' || byte == b'\t' || byte == b'\r' || byte == b'\n'
}

fn is_letter(byte: u8) -> bool
    ensures { result ≡ is_letter byte }
{
    byte.is_ascii_alphabetic() || byte == b'_'
}

fn kind_of(byte: u8) -> Kind
    ensures { result ≡ kind_of byte }
{
    if is_letter(byte) {
        Kind::Word
    } else if byte.is_ascii_digit() {
        Kind::Number
    } else {
        Kind::Mark
    }
}

fn goes_on(kind: Kind, byte: u8) -> bool
    ensures { result ≡ goes_on kind byte }
{
    match kind {
        Kind::Word => is_letter(byte) || byte.is_ascii_digit(),
        Kind::Number => byte.is_ascii_digit(),
        Kind::Mark => false,
    }
}

/// Returns the number of bytes at the front of `bytes` that continue a token of the kind `kind`.
fn run_length(bytes: &[u8], kind: Kind) -> usize
    ensures count { result ≡ prefix_len (goes_on kind) bytes.now }
    ensures within { result ≤ length bytes.now }
{
    let mut count = 0;
    for byte in bytes {
        if !goes_on(kind, *byte) {
            return count;
        }
        count += 1;
    }
    count
}

/// Checks whether two of `byte` form one token.
fn is_double(double: Option<u8>, byte: u8) -> bool
    ensures { result ≡ is_double double byte }
{
    match double {
        Some(doubled) => byte == doubled,
        None => false,
    }
}

/// Checks whether `bytes` begin with `byte`.
fn is_next(byte: u8, bytes: &[u8]) -> bool
    ensures { result ≡ is_next byte bytes.now }
{
    match bytes {
        [] => false,
        [first, ..] => *first == byte,
    }
}

/// Returns the number of `bytes` that belong to the token of the byte `first` before them.
#[tactic(auto, using(crate::proofs::Lexing::more_fits))]
fn more_of(double: Option<u8>, first: u8, bytes: &[u8]) -> usize
    ensures count { result ≡ more_of double first bytes.now }
    ensures within { result ≤ length bytes.now }
{
    if is_double(double, first) && is_next(first, bytes) {
        1
    } else {
        run_length(bytes, kind_of(first))
    }
}

/// Returns the token at the front of `bytes`, which begin at `place`.
fn first_token(double: Option<u8>, bytes: &[u8], place: usize) -> Token<'_>
    requires { 0 < length bytes.now }
    ensures first { (b : ℕ) (rest : List ℕ) → bytes.now ≡ b ∷ rest → seen result ≡ first_token double b rest place }
    ensures within { end_of (seen result) ≤ place + length bytes.now }
{
    let more = more_of(double, bytes[0], &bytes[1..]);
    Token {
        text: &bytes[..more + 1],
        place,
    }
}

/// Finds the first byte of `bytes` from `at` on that is not a blank, and returns its place; `at` or the length where
/// there is none.
pub fn past_blanks(bytes: &[u8], at: usize) -> usize
    ensures same { (double : Option ℕ) → tokens_at double bytes.now result ≡ tokens_at double bytes.now at }
    ensures solid { result < length bytes.now → is_blank (slice_index bytes.now result) ≡ false }
{
    let mut place = at;
    while place < bytes.len() && is_blank(bytes[place]) {
        place += 1;
    }
    place
}

/// Cuts the next token of `bytes` from `at` on, where two of the byte `double` form one token.
pub fn next_token(double: Option<u8>, bytes: &[u8], at: usize) -> Option<Token<'_>>
    ensures next { MatchOption result (tokens_at double bytes.now at ≡ []) (λ token. tokens_at double bytes.now at ≡ seen token ∷ tokens_at double bytes.now (end_of (seen token))) }
    ensures within { IfSome result (λ token. end_of (seen token) ≤ length bytes.now) }
{
    let place = past_blanks(bytes, at);
    if place < bytes.len() {
        Some(first_token(double, &bytes[place..], place))
    } else {
        None
    }
}
