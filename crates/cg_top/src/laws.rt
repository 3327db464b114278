//! A law about the definition of the top call, for the proofs of crates above. The function here has an empty body: its
//! clause states the law.
ghost use Rattle.std.specs.Prelude.{List, Option};
ghost use Rattle.cg_effects.specs.Outcome.{Name, Bytes, Outcome};
ghost use Rattle.cg_top.specs.TopCall.{IsDefined};

/// States that for all words and all known files an outcome is defined. So where the files of a store are known, what a
/// call does over it is compared with some outcome.
pub fn always_defined()
    ensures { (words : List Name) (files : Name → Option Bytes) → (o : Outcome) × IsDefined words files o }
{}
