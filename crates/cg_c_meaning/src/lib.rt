//! What programs in C mean, and the same turn by turn.
//!
//! The laws are about values of definitions; they are the contracts of functions with empty bodies.
#![tactic(auto)]

ghost use Rattle.cg_c_meaning.specs.Taken.{BlocksTake, ExpressionsTake, IndicesTake, StatementsTake};
ghost use Rattle.cg_c_meaning.specs.Turns.{TurnsAreTheCall};
ghost use Rattle.cg_c_meaning.specs.Typed.{SourcesAreTyped};

/// States that the turns of a program, one after another, do what its function does.
pub fn turns_are_the_call()
    ensures { TurnsAreTheCall }
{}

/// States that the program of each text is typed.
pub fn sources_are_typed()
    ensures { SourcesAreTyped }
{}

/// States that expressions change nothing but the streams, and that expressions and statements take a word from a stream
/// for each of their inputs.
pub fn inputs_are_taken()
    ensures expressions { ExpressionsTake }
    ensures indices { IndicesTake }
    ensures statements { StatementsTake }
    ensures blocks { BlocksTake }
{}
