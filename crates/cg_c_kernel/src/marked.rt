//! The values of a turn, with marks of the live ones.
ghost use Rattle.std.specs.Prelude.{◌≡◌, length};
ghost use Rattle.cg_c_values.specs.Listed.{listed};
ghost use Rattle.cg_c_kernel.specs.Live.{AreClosed, AreFinalsWithin};

use cg_c_values::Values;

/// The values of a turn, the final value of each word that is assigned, and marks of the live values.
#[derive(Drop)]
pub struct Live<'a> {
    pub values: &'a Values,
    pub finals: &'a [Option<usize>],
    pub marks: Vec<bool>,
    ghost long: { length marks.items ≡ length (listed values.now) },
    ghost closed: { AreClosed (listed values.now) finals.now marks.items },
}
