//! Laws about the definitions, for the proofs of crates above. The function here has an empty body.
ghost use Rattle.std.specs.Prelude.{◌≡◌, List};
ghost use Rattle.cg_model.specs.declared.kernel.OrderEdge.{OrderEdge};
ghost use Rattle.cg_model.specs.Kernel.{Kernel, IsKernel};
ghost use Rattle.cg_depend.specs.Depend.{AreNeeded};

/// States that each valid kernel needs exactly one list of order edges. So where a result has the needed edges, it is
/// compared with a list that exists and is unique.
pub fn always_needed()
    ensures one { (K : Kernel) (es fs : List OrderEdge) → AreNeeded K es → AreNeeded K fs → es ≡ fs }
    ensures some { (K : Kernel) → IsKernel K → (es : List OrderEdge) × AreNeeded K es }
{}
