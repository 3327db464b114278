//! The relation of an architecture to its netlist, and the meaning of the equations of a netlist. Every function here
//! has an empty body: its clauses are laws about the definitions, for the proofs of crates above.
ghost use Rattle.std.specs.Prelude.{ℕ};
ghost use Rattle.cg_model.specs.Work.{Image};
ghost use Rattle.cg_model.specs.Array.{Arch};
ghost use Rattle.cg_model.specs.Config.{Config};
ghost use Rattle.cg_netlist.specs.Netlist.{NetGraph};
ghost use Rattle.cg_gates.specs.Laws.{AcceptsOwn, WordsFollow, LeavesAlike, SolvesEquations, HasOneSolution};

/// States that the netlist of a valid architecture has a meaning over it: none of E1 to E6 applies.
pub fn accepts()
    ensures { (A : Arch) → AcceptsOwn A }
{}

/// States that in the netlist of a valid architecture the net of each resource has, in every cycle and under every
/// configuration, the resource's word.
pub fn follows()
    ensures { (A : Arch) (C : Config) (n : ℕ) (image : Image) → WordsFollow A C n image }
{}

/// States that under every configuration a run of the netlist of a valid architecture leaves the same memory, output
/// streams and count of accesses outside the memory as a run of the array.
pub fn leaves()
    ensures { (A : Arch) (C : Config) (n : ℕ) (image : Image) → LeavesAlike A C n image }
{}

/// States that the equations of a netlist that has a meaning have exactly one solution: the values that are computed
/// cycle by cycle solve them, and any two solutions agree on each declared net and each unit, in memory, streams and
/// count.
pub fn equations()
    ensures solve { (A : Arch) (N : NetGraph) (C : Config) (n : ℕ) (image : Image) → SolvesEquations A N C n image }
    ensures one { (A : Arch) (N : NetGraph) (C : Config) (n : ℕ) (image : Image) → HasOneSolution A N C n image }
{}
