//! Laws about what commands leave. The function here has an empty body: its clauses state the laws.
ghost use Rattle.cg_commands.specs.Chain.{CallsCompose, FourCallsCompose, SimplifiedCallsCompose};

/// States what commands leave one after the other.
///
/// `loops`: `loop`, `search` and `run` leave the image that the loop of the source text leaves. `simplified`: `simplify`,
/// `search` and `run` leave what the turns of the given kernel leave. `simplified_loops`: `loop`, `simplify`, `search` and
/// `run` leave what the loop leaves.
pub fn calls_compose()
    ensures loops { CallsCompose }
    ensures simplified { SimplifiedCallsCompose }
    ensures simplified_loops { FourCallsCompose }
{}
