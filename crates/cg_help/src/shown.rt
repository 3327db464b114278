//! Characters as notes show them.

use std::alloc::AllocError;

/// Adds `character` to `text`, escaped as in a literal if it is a control character.
pub fn push_shown(text: &mut String, character: char) -> Result<(), AllocError> {
    if character.is_control() {
        let escaped = character.escape_default();
        write!(text, "{escaped}")
    } else {
        text.push(character)
    }
}
