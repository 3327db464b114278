//! The word that fields in memory have for an argument.
ghost use Rattle.std.specs.Prelude.{◌≡◌, ◌<◌, slice_index};
ghost use Rattle.cg_config.specs.Told.{told};

use cg_model::UnitFields;

/// Returns the word that `fields` have for the argument `place` in turn `turn`, if any.
pub fn told_by(fields: &UnitFields, place: usize, turn: u32) -> Option<u32>
    requires { place < 3 }
    ensures { result ≡ told fields.now place turn }
{
    let arg = &fields.args[place];
    if arg.fixed {
        Some(fields.immediate)
    } else if turn < arg.count {
        Some(initial_word(&arg.init, turn))
    } else {
        None
    }
}

/// Returns the initial word of `turn`, 0 past the last one.
fn initial_word(init: &[u32; 4], turn: u32) -> u32
    ensures { result ≡ slice_index init.now turn }
{
    if turn < 4 { init[turn as usize] } else { 0 }
}
