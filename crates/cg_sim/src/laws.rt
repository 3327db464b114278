//! Laws of the array. Every function here has an empty body, and its contract is about the definitions alone.
ghost use Rattle.std.specs.Prelude.{◌<◌, ℕ, length};
ghost use Rattle.cg_model.specs.Array.{Arch};
ghost use Rattle.cg_model.specs.Canonical.{IsCanonical};
ghost use Rattle.cg_model.specs.Config.{Config, fields};
ghost use Rattle.cg_sim.specs.FirstMachine.{IsFirst, IsFirstOp, MachinesAgree};

/// States that the array with the first 22 operations and the present array leave the same results.
///
/// `same`: they do so for each configuration of the first array, whatever the architecture, the number of iterations
/// and the image. `canonical`: a canonical configuration is one of the first array if each unit of the architecture is,
/// in each slot, off or has one of the first 22 operations.
pub fn first_machine()
    ensures same { (C : Config) → IsFirst C → MachinesAgree C }
    ensures canonical { (A : Arch) (C : Config) → IsCanonical A C → ((x slot : ℕ) → x < length A.units → slot < C.ii → IsFirstOp (fields C x slot).op) → IsFirst C }
{}
