//! Numbers in text.
ghost use Rattle.std.specs.Prelude.{◌≡◌, ◌↔◌, ◌<◌, ◌≤◌, false, IsTrue};
ghost use Rattle.std.specs.Fmt.{digits, digit_glyph};
ghost use Rattle.cg_netlist.specs.Reads as spec;

/// Returns the number of 32 bits that `text` writes in base `base`, without leading zeros.
#[tactic(auto, using(crate::proofs::Digits::written_some, crate::proofs::Digits::written_none, crate::proofs::Digits::unread))]
pub(crate) fn number_of(text: &[u8], base: u32) -> Option<u32>
    requires low { 10 ≤ base }
    requires high { base ≤ 16 }
    ensures { spec.IsWritten base text.now result }
{
    match parsed(text, base) {
        Some(number) => {
            if is_written(text, base, number) {
                Some(number)
            } else {
                None
            }
        }
        None => None,
    }
}

/// Returns the number that `text` writes in base `base`, with or without leading zeros.
fn parsed(text: &[u8], base: u32) -> Option<u32>
    requires low { 10 ≤ base }
    requires high { base ≤ 16 }
    ensures { spec.Parses base text.now result }
{
    match std::str::from_utf8(text) {
        Ok(text) => parsed_text(text, base),
        Err(_) => None,
    }
}

/// Returns the number that `text` writes in base `base`, with or without leading zeros.
fn parsed_text(text: &str, base: u32) -> Option<u32>
    requires low { 10 ≤ base }
    requires high { base ≤ 16 }
    ensures { spec.Parses base text.now result }
{
    match u32::from_str_radix(text, base) {
        Ok(number) => Some(number),
        Err(_) => None,
    }
}

/// Checks whether `text` is the representation of `number` in base `base`, from the last digit on.
pub(crate) fn is_written(text: &[u8], base: u32, number: u32) -> bool
    requires low { 2 ≤ base }
    requires high { base ≤ 16 }
    ensures { IsTrue result ↔ (text.now ≡ digits base false number) }
{
    let length = text.len();
    if length == 0 {
        return false;
    }
    let place = length - 1;
    let front = &text[..place];
    if text[place] != glyph(number % base) {
        return false;
    }
    let more = number / base;
    if more == 0 {
        return front.is_empty();
    }
    is_written(front, base, more)
}

/// Returns the digit for the value `digit`, in lower case.
fn glyph(digit: u32) -> u8
    requires { digit < 16 }
    ensures { result ≡ digit_glyph false digit }
{
    if digit < 10 {
        48 + digit as u8
    } else {
        87 + digit as u8
    }
}
