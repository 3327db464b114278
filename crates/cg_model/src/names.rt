//! The syntax of names.
ghost use Rattle.std.specs.Prelude.{◌≡◌};
ghost use Rattle.std.specs.List.{list_all};
ghost use Rattle.cg_model.specs.Names as spec;

/// Returns whether `text` is an identifier: an ASCII letter or `_`, followed by ASCII letters, digits or `_`.
pub fn is_identifier(text: &str) -> bool
    ensures { result ≡ spec.is_identifier text.now }
{
    match text.as_bytes() {
        [first, ..] => begins_name(*first) && are_within_name(text.as_bytes()),
        [] => false,
    }
}

/// Returns whether `text` is an identifier of at most `most` characters.
pub fn is_name(text: &str, most: usize) -> bool
    ensures { result ≡ spec.is_name most text.now }
{
    is_identifier(text) && text.len() <= most
}

fn are_within_name(bytes: &[u8]) -> bool
    ensures { result ≡ list_all spec.within_name bytes.now }
{
    bytes.iter().all(|byte| within_name(*byte))
}

fn begins_name(byte: u8) -> bool
    ensures { result ≡ spec.begins_name byte }
{
    matches!(byte, b'A'..=b'Z' | b'a'..=b'z' | b'_')
}

fn within_name(byte: u8) -> bool
    ensures { result ≡ spec.within_name byte }
{
    begins_name(byte) || byte.is_ascii_digit()
}
