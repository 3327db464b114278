//! Configurations of an array: a trait for access to one, whether it is kept in tables or as bits that are read in
//! place; and configurations in tables.
#![tactic(auto)]

ghost use Rattle.std.specs.Prelude.{◌≡◌, ◌<◌};
ghost use Rattle.cg_model.specs.Config as configs;
ghost use Rattle.cg_model.specs.Canonical.{arity_of};
ghost use Rattle.cg_config.specs.Known.{HasSelect, HasUnit};
ghost use Rattle.cg_config.specs.Told.{head_of, told};

mod checking;
mod config;
mod head;
mod rows;
mod rules;
mod told;

pub use cg_model::{ArgFields, UnitFields};
pub use cg_word::Op;
pub use checking::is_canonical;
pub use config::{Config, NO_ARG};
pub use head::UnitHead;
pub use rows::Row;
pub use rules::{
    are_fields, arity_of, count_right, gives_output, immediate_right, mode_right, port_right,
    stage_right, word_right,
};
pub use told::told_by;

/// A configuration of an array.
pub trait Contexts {
    ghost config: { Self → configs.Config };

    /// Returns the interval: the number of slots, where a slot is a cycle's number modulo the interval.
    fn ii(&self) -> u32
        ensures { result ≡ (config self.now).ii };

    /// Returns one more than the greatest stage in use.
    fn stages(&self) -> u32
        ensures { result ≡ (config self.now).stages };

    /// Returns the select of `resource` in `slot`: 0 for none, else the position of a driver in the resource's list,
    /// counted from 1.
    fn select(&self, resource: u32, slot: u32) -> u32
        requires { HasSelect (config self.now) resource slot }
        ensures { result ≡ configs.select (config self.now) resource slot };

    /// Returns the fields of `unit` in `slot`.
    fn unit(&self, unit: u32, slot: u32) -> UnitFields
        requires { HasUnit (config self.now) unit slot }
        ensures { result ≡ configs.fields (config self.now) unit slot };

    /// Returns what `unit` begins in `slot`, without its arguments.
    fn head(&self, unit: u32, slot: u32) -> UnitHead
        requires { HasUnit (config self.now) unit slot }
        ensures { result ≡ head_of (configs.fields (config self.now) unit slot) };

    /// Returns the word that the fields of `unit` in `slot` have for the argument `place` in turn `turn`: the
    /// immediate, or the turn's initial word. Where it is None, the argument is the word on its port.
    fn told(&self, unit: u32, slot: u32, place: usize, turn: u32) -> Option<u32>
        requires known { HasUnit (config self.now) unit slot }
        requires argument { place < arity_of (configs.fields (config self.now) unit slot).op }
        ensures { result ≡ told (configs.fields (config self.now) unit slot) place turn };
}
