//! The relation between orders and loops. The function here has an empty body: its clauses are laws about the
//! definitions, for the proofs of crates above.
ghost use Rattle.std.specs.Prelude.{ℕ, List};
ghost use Rattle.cg_model.specs.declared.array.Resource.{Resource};
ghost use Rattle.cg_levelize.specs.Topological.{IsTopological, IsCombinationalLoop, AreLevels};

/// States that an order gives levels that rise from each resource to those that it drives in the same cycle, so that no
/// resources have both an order and a loop.
pub fn orders_give_levels()
    ensures levels { (rs : List Resource) (order : List ℕ) →
        IsTopological rs order → (level : ℕ → ℕ) × AreLevels rs level }
    ensures no_loop { (rs : List Resource) (order loop : List ℕ) →
        IsTopological rs order → IsCombinationalLoop rs loop → ⊥ }
{}
