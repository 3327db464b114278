//! What nodes have to be so that the turns of a kernel do what the draft of a turn does.
#![tactic(auto)]

ghost use Rattle.cg_c_nodes.specs.Beside.{TurnsRunBeside};
ghost use Rattle.cg_c_nodes.specs.Compiled.{KernelsDoPrograms};

/// Says that the turns of a kernel run beside the draft of a turn whose values and effects have their nodes in it.
pub fn turns_run_beside()
    ensures { TurnsRunBeside }
{}

/// Says that a kernel whose turns run beside a turn of a program does what the program does.
pub fn kernels_do_programs()
    ensures { KernelsDoPrograms }
{}
