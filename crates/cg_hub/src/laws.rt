//! Laws of the hub. Every function here has an empty body, and its clauses are about the definitions alone.
ghost use Rattle.cg_hub.specs.Laws.{IsHubLegal, IsHubOffered};

/// States that the mapping of a hub that suffices is legal.
pub fn legal()
    ensures { IsHubLegal }
{}

/// States that where the hub suffices, each operation of the kernel is offered by some unit.
pub fn offered()
    ensures { IsHubOffered }
{}
