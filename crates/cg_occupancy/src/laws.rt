//! Laws of marks. The function here has an empty body, and its clause is about the definitions alone.
ghost use Rattle.cg_model.specs.Mapping.{IsLegal};
ghost use Rattle.cg_check.specs.Legal.{Mapped};
ghost use Rattle.cg_occupancy.specs.Marks.{AreExact};

/// States that the marks of a legal mapping are the nodes that it begins and the values that it carries, and no others.
pub fn exact()
    ensures { (m : Mapped) → IsLegal m.arch m.kernel m.mapping → AreExact m }
{}
