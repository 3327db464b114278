//! Bytes, and what begins with them.
ghost use Rattle.std.specs.Prelude.{◌≡◌, ◌≤◌, length, true};
ghost use Rattle.std.specs.List.{prefix_len};
ghost use Rattle.std.specs.Char.{is_ascii_digit};
ghost use Rattle.cg_c_syntax.specs.Pieces as spec;
ghost use Rattle.cg_c_reader.specs.Classes.{in_class};

/// A class of bytes.
#[derive(Clone, Copy, Drop)]
pub(crate) enum Class {
    /// A space or a tab.
    Space,
    /// A letter, `_` or a digit.
    Word,
    Digit,
    /// A hexadecimal digit.
    Hexadecimal,
    /// Any byte but a line feed.
    InLine,
    Backslash,
    LetterX,
    LetterU,
    /// `+` or `-`.
    Sign,
    /// A letter, `_`, a digit or a point, which the preprocessor takes into a number.
    InNumber,
}

/// Returns whether `byte` is a space or a tab.
fn is_space(byte: u8) -> bool
    ensures { result ≡ spec.is_space byte }
{
    byte == b' ' || byte == b'\t'
}

/// Returns whether `byte` is a space, a tab or a carriage return.
pub(crate) fn is_blank(byte: u8) -> bool
    ensures { result ≡ spec.is_blank byte }
{
    is_space(byte) || byte == b'\r'
}

/// Returns whether `byte` is a letter or `_`.
pub(crate) fn is_letter(byte: u8) -> bool
    ensures { result ≡ spec.is_letter byte }
{
    byte.is_ascii_alphabetic() || byte == b'_'
}

/// Returns whether `byte` is a digit.
pub(crate) fn is_digit(byte: u8) -> bool
    ensures { result ≡ is_ascii_digit byte }
{
    byte.is_ascii_digit()
}

/// Returns whether `byte` is a letter, `_` or a digit.
fn is_word_byte(byte: u8) -> bool
    ensures { result ≡ spec.is_word_byte byte }
{
    is_letter(byte) || byte.is_ascii_digit()
}

/// Returns whether `byte` is a control byte that no comment may have.
pub(crate) fn is_control(byte: u8) -> bool
    ensures { result ≡ spec.is_control byte }
{
    byte < 32 && !(byte == b'\t' || (byte == b'\n' || byte == b'\r'))
}

/// Returns whether `byte` is `e` or `E`.
pub(crate) fn is_e(byte: u8) -> bool
    ensures { result ≡ spec.is_e byte }
{
    byte == b'e' || byte == b'E'
}

/// Returns whether `byte` is of the class `class`.
fn is_in(class: Class, byte: u8) -> bool
    ensures { result ≡ in_class class byte }
{
    match class {
        Class::Space => is_space(byte),
        Class::Word => is_word_byte(byte),
        Class::Digit => byte.is_ascii_digit(),
        Class::Hexadecimal => byte.is_ascii_hexdigit(),
        Class::InLine => !(byte == b'\n'),
        Class::Backslash => byte == b'\\',
        Class::LetterX => byte == b'x' || byte == b'X',
        Class::LetterU => byte == b'u' || byte == b'U',
        Class::Sign => byte == b'+' || byte == b'-',
        Class::InNumber => is_word_byte(byte) || byte == b'.',
    }
}

/// Returns whether `bytes` begin with a byte of the class `class`.
pub(crate) fn first_in(class: Class, bytes: &[u8]) -> bool
    ensures value { result ≡ spec.first_is (in_class class) bytes.now }
    ensures within { result ≡ true → 1 ≤ length bytes.now }
{
    match bytes {
        [] => false,
        [first, ..] => is_in(class, *first),
    }
}

/// Returns the number of bytes of the class `class` at the front of `bytes`.
pub(crate) fn run_length(class: Class, bytes: &[u8]) -> usize
    ensures value { result ≡ prefix_len (in_class class) bytes.now }
    ensures within { result ≤ length bytes.now }
{
    let mut count = 0;
    for byte in bytes {
        if !is_in(class, *byte) {
            return count;
        }
        count += 1;
    }
    count
}

/// Returns whether `bytes` begin with `text`.
pub(crate) fn begins(text: &[u8], bytes: &[u8]) -> bool
    ensures value { result ≡ spec.begins text.now bytes.now }
    ensures within { result ≡ true → length text.now ≤ length bytes.now }
{
    bytes.starts_with(text)
}

/// Returns whether `\` or `??/` is next in `bytes`.
pub(crate) fn is_splice(bytes: &[u8]) -> bool
    ensures { result ≡ spec.is_splice bytes.now }
{
    first_in(Class::Backslash, bytes) || begins(b"??/", bytes)
}

/// Returns whether a carriage return is next in `bytes`, and another byte than a line feed after it.
pub(crate) fn is_lone_return(bytes: &[u8]) -> bool
    ensures { result ≡ spec.is_lone_return bytes.now }
{
    match bytes {
        [first, second, ..] => *first == b'\r' && !(*second == b'\n'),
        _ => false,
    }
}
