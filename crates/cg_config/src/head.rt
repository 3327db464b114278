//! What a unit begins in a slot, without its arguments.

use cg_model::UnitFields;
use cg_word::Op;

/// What a unit begins in a slot, without its arguments.
#[derive(Clone, Copy)]
pub struct UnitHead {
    /// Its operation, `None` where the unit is off.
    pub op: Option<Op>,
    /// The round in which it works on turn 0, where a round is `ii` cycles.
    pub stage: u32,
    /// The stream of an input, output or outputif; 0 for all other operations.
    pub port: u32,
}

impl UnitHead {
    ghost use Rattle.std.specs.Prelude.{◌≡◌};
    ghost use Rattle.cg_config.specs.Told.{head_of};

    /// Returns the head of `fields`.
    pub fn of(fields: &UnitFields) -> UnitHead
        ensures { result ≡ head_of fields.now }
    {
        UnitHead {
            op: fields.op,
            stage: fields.stage,
            port: fields.port,
        }
    }
}
