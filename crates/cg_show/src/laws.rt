//! Laws of pictures. The function here has an empty body, and its clause is about the definitions alone.
ghost use Rattle.std.specs.Prelude.{ℕ, List};
ghost use Rattle.cg_check.specs.Legal.{Mapped};
ghost use Rattle.cg_show.specs.Exact.{ShowsSlots};

/// States that the panel of each slot shows the nodes that units begin and the values that resources carry in it, and no
/// others, and that a picture has each panel for which there is room.
pub fn shows_slots()
    ensures { (m : Mapped) (lines : List (List ℕ)) → ShowsSlots m lines }
{}
